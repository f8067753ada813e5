//! A command: bytes are read, and its report on them is written.

ghost use Rattle.std.specs.Prelude.{◌≡◌, ◌≢◌, ◌↔◌, ℕ, ◌<◌, ◌≤◌, ◌-◌, List, length, IfOk, IfSome};
ghost use Rattle.plc_io.specs.Faults.{Rose};
ghost use Rattle.plc_io.specs.Told.{WhereTold};
ghost use Rattle.console_command.specs.declared.outcome.Verdict.{Verdict as Said};
ghost use Rattle.console_command.specs.Outcome.{byte_limit, IsComplete, IsResponse, OnSilence, Wrote};

use crate::outcome::{Cause, Outcome, Verdict};
use plc_io::{ReadError, Sink, Source, read_all, write_all};
use plc_text::{NoMemory, Text};
use std::alloc::Global;

/// How many bytes a command reads at most.
const BYTE_LIMIT: u32 = 8_388_608;

/// What a command says on bytes.
#[derive(Drop)]
pub struct Report {
    pub verdict: Verdict,
    /// Its lines, each ended by LF.
    pub text: Text,
}

/// A command that reads bytes and writes a report on them.
pub trait Command {
    /// A report of this verdict on the bytes is this text.
    ghost reports: { List ℕ → Said → List ℕ → Type 0 };

    /// The report on bytes, which are few enough.
    fn report(alloc: Global, bytes: &[u8]) -> Result<Report, NoMemory>
        requires { length bytes.now ≤ byte_limit }
        ensures { IfOk result (λ report. reports bytes.now report.verdict report.text) };
}

/// Writes the report on bytes.
fn respond<C: Command, K: Sink>(alloc: Global, bytes: &[u8], out: &mut K) -> Outcome
    requires { length bytes.now ≤ byte_limit }
    ensures wrote { Wrote (C.reports bytes.now) (K.taken out.old) (K.taken out.new) result }
    ensures silent { OnSilence result (out.new ≡ out.old) }
    ensures cause { result ≡ Outcome.Cut → Rose (K.faults out.old) (K.faults out.new) }
    ensures read { IsResponse result }
    ensures complete { ¬ Rose (K.faults out.old) (K.faults out.new) → result ≢ Outcome.Cut }
{
    let Ok(report) = C::report(alloc, bytes) else {
        return Outcome::Silent(Cause::NoMemory);
    };
    match write_all(out, report.text.as_bytes()) {
        Ok(()) => Outcome::Whole(report.verdict),
        Err(_) => Outcome::Cut,
    }
}

/// Does a command: it reads the source to its end and writes the report to the sink. It never waits.
///
/// `ReadFault` and `Cut` have a failed read or write as their cause, which the source or the sink has counted. `NoMemory` may come
/// wherever memory is taken. Where the source and the sink tell their bytes, the other outcomes are exact.
pub fn perform<C: Command, S: Source, K: Sink>(alloc: Global, src: &mut S, out: &mut K) -> Outcome
    // The whole report was written, or its beginning.
    ensures wrote { IfSome (S.left src.old) (λ bytes. Wrote (C.reports bytes) (K.taken out.old) (K.taken out.new) result) }
    ensures silent { OnSilence result (out.new ≡ out.old) }

    ensures too_long { WhereTold (S.left src.old) (S.left src.new) (λ bytes rest. (result ≡ Outcome.Silent Cause.TooLong) ↔ (byte_limit < length bytes - length rest)) }
    ensures read_fault { result ≡ Outcome.Silent Cause.ReadFault → Rose (S.faults src.old) (S.faults src.new) }
    ensures write_fault { result ≡ Outcome.Cut → Rose (K.faults out.old) (K.faults out.new) }
    ensures not_usage { result ≢ Outcome.Silent Cause.Usage }

    // Where no read and no write fails, the outcome is the one whose condition holds, or want of memory.
    ensures complete { ¬ Rose (S.faults src.old) (S.faults src.new) → ¬ Rose (K.faults out.old) (K.faults out.new)
        → IfSome (S.left src.old) (λ bytes. IsComplete (C.reports bytes) bytes result) }
{
    match read_all(alloc, src, BYTE_LIMIT) {
        Ok(bytes) => respond::<C, K>(alloc, bytes.as_slice(), out),
        Err(ReadError::ReadFault) => Outcome::Silent(Cause::ReadFault),
        Err(ReadError::TooLong) => Outcome::Silent(Cause::TooLong),
        Err(ReadError::NoMemory) => Outcome::Silent(Cause::NoMemory),
    }
}
