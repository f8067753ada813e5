//! The command `play`.

ghost use Rattle.std.specs.Prelude.{◌≡◌, ◌≢◌, ◌↔◌, ◌<◌, ◌-◌, length, IfSome};
ghost use Rattle.plc_io.specs.Faults.{Rose};
ghost use Rattle.plc_io.specs.Told.{WhereTold};
ghost use Rattle.console_command.specs.Outcome.{byte_limit, IsComplete, OnSilence, Wrote};
ghost use Rattle.console.specs.play_console.Report.{PlayReports};

use crate::play_console::report::report_bytes;
use console_command::{Cause, Checker, Command, Outcome, Report, perform};
use plc_io::{Sink, Source};
use plc_text::NoMemory;
use std::alloc::Global;
use std::marker::PhantomData;

/// The command with what judges texts.
struct PlayCommand<J> {
    _judge: PhantomData<J>,
}

impl<J: Checker> Command for PlayCommand<J> {
    ghost use Rattle.console.specs.play_console.Report.{PlayReports};

    ghost reports = { PlayReports J.accepts J.refuses };

    fn report(alloc: Global, bytes: &[u8]) -> Result<Report, NoMemory> {
        report_bytes::<J>(alloc, bytes)
    }
}

/// What the command `play` does: it reads a scenario from the source, runs it on one thread, and writes the journal to the sink. It starts
/// no thread and never waits, so it returns on every input. `J` judges the texts of the first program and of the sources that changes load.
///
/// `ReadFault` and `Cut` have a failed read or write as their cause, which the source or the sink has counted. `NoMemory` may come
/// wherever memory is taken. Where the source and the sink tell their bytes, the other outcomes are exact. Nothing bounds the machine's
/// stack in the program's calls.
pub fn play<J: Checker, S: Source, K: Sink>(alloc: Global, src: &mut S, out: &mut K) -> Outcome
    // The journal, or the one line of a refusal: the whole text was written, or its beginning.
    ensures wrote { IfSome (S.left src.old) (λ bytes. Wrote (PlayReports J.accepts J.refuses bytes) (K.taken out.old) (K.taken out.new) result) }
    ensures silent { OnSilence result (out.new ≡ out.old) }

    ensures too_long { WhereTold (S.left src.old) (S.left src.new) (λ bytes rest. (result ≡ Outcome.Silent Cause.TooLong) ↔ (byte_limit < length bytes - length rest)) }
    ensures read_fault { result ≡ Outcome.Silent Cause.ReadFault → Rose (S.faults src.old) (S.faults src.new) }
    ensures write_fault { result ≡ Outcome.Cut → Rose (K.faults out.old) (K.faults out.new) }
    ensures not_usage { result ≢ Outcome.Silent Cause.Usage }

    // Where no read and no write fails, the outcome is the one whose condition holds, or want of memory.
    ensures complete { ¬ Rose (S.faults src.old) (S.faults src.new) → ¬ Rose (K.faults out.old) (K.faults out.new)
        → IfSome (S.left src.old) (λ bytes. IsComplete (PlayReports J.accepts J.refuses bytes) bytes result) }
{
    perform::<PlayCommand<J>, S, K>(alloc, src, out)
}
