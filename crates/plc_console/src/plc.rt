//! The commands of the program.

ghost use Rattle.std.specs.Prelude.{◌≡◌, ◌≢◌, ◌↔◌, ◌⊎◌, ◌<◌, ◌-◌, Some, None, length, IfSome};
ghost use Rattle.plc_io.specs.Faults.{Rose};
ghost use Rattle.plc_io.specs.Told.{WhereTold};
ghost use Rattle.console_command.specs.Outcome.{byte_limit, IsComplete, OnSilence, Wrote};
ghost use Rattle.console.specs.console_words.Words.{order_named};
ghost use Rattle.console.specs.declared.console_words.words.Order.{Order as Ordered};
ghost use Rattle.plc_console.specs.Plc.{outcome_of, ReportsOf};

use crate::gate::Gate;
use console::{Order, check, order_of, play};
use console_command::{Cause, Outcome, Status};
use plc_io::{Sink, Source};
use plc_text::Text;
use source_check::Language;
use std::alloc::Global;
use std::sync::Wait;
use std::thread::Threads;

/// Does a command.
fn perform<S: Source, K: Sink>(alloc: Global, order: Order, src: &mut S, out: &mut K) -> Outcome
    ensures wrote { IfSome (S.left src.old) (λ bytes. Wrote (ReportsOf order bytes) (K.taken out.old) (K.taken out.new) result) }
    ensures silent { OnSilence result (out.new ≡ out.old) }
    ensures too_long { WhereTold (S.left src.old) (S.left src.new) (λ bytes rest. (result ≡ Outcome.Silent Cause.TooLong) ↔ (byte_limit < length bytes - length rest)) }
    ensures read_fault { result ≡ Outcome.Silent Cause.ReadFault → Rose (S.faults src.old) (S.faults src.new) }
    ensures write_fault { result ≡ Outcome.Cut → Rose (K.faults out.old) (K.faults out.new) }
    ensures not_usage { result ≢ Outcome.Silent Cause.Usage }
    ensures complete { ¬ Rose (S.faults src.old) (S.faults src.new) → ¬ Rose (K.faults out.old) (K.faults out.new)
        → IfSome (S.left src.old) (λ bytes. IsComplete (ReportsOf order bytes) bytes result) }
{
    match order {
        Order::Check => check::<Language, S, K>(alloc, src, out),
        Order::Play => play::<Language, S, K>(alloc, src, out),
    }
}

/// Does what the words order: `check` judges the first program of a scenario and each of its sources, `play` runs the scenario on one
/// thread. The scenario is read from `src`, the report is written to `out`. `gate` is passed by commands that run many threads.
///
/// `Usage` says that the words order nothing. `ReadFault` and `WriteFault` have a failed read or write as their cause, which the source
/// or the sink has counted. `NoMemory` may come wherever memory is taken, in place of `Usage` too. Where the source and the sink tell their
/// bytes, the other statuses are exact. Nothing bounds the machine's stack in the program's calls.
pub fn plc<R: Threads + Wait + Sync, S: Source, K: Sink, G: Gate + Sync>(
    _rt: &R,
    alloc: Global,
    words: &[Text],
    src: &mut S,
    out: &mut K,
    _gate: &G,
) -> Status
    ensures usage { result ≡ Status.Usage → order_named words.now ≡ None }
    // Where the words order nothing, nothing is read or written.
    ensures no_order { order_named words.now ≡ None → ((result ≡ Status.Usage) ⊎ (result ≡ Status.NoMemory)) × (src.new ≡ src.old) × (out.new ≡ out.old) }

    // The report of the command: the whole text was written, or its beginning, or nothing.
    ensures wrote { (order : Ordered) → order_named words.now ≡ Some order
        → IfSome (S.left src.old) (λ bytes. Wrote (ReportsOf order bytes) (K.taken out.old) (K.taken out.new) (outcome_of result)) }
    ensures silent { OnSilence (outcome_of result) (out.new ≡ out.old) }

    ensures too_long { WhereTold (S.left src.old) (S.left src.new) (λ bytes rest. (result ≡ Status.TooLong) ↔ (byte_limit < length bytes - length rest)) }
    ensures read_fault { result ≡ Status.ReadFault → Rose (S.faults src.old) (S.faults src.new) }
    ensures write_fault { result ≡ Status.WriteFault → Rose (K.faults out.old) (K.faults out.new) }

    // Where no read and no write fails, the status is the one whose condition holds, or want of memory.
    ensures complete { (order : Ordered) → order_named words.now ≡ Some order → ¬ Rose (S.faults src.old) (S.faults src.new) → ¬ Rose (K.faults out.old) (K.faults out.new)
        → IfSome (S.left src.old) (λ bytes. IsComplete (ReportsOf order bytes) bytes (outcome_of result)) }
{
    let Ok(found) = order_of(alloc, words) else {
        return Status::NoMemory;
    };
    let Some(order) = found else {
        return Status::Usage;
    };
    perform(alloc, order, src, out).status()
}
