//! The reports of one line, which all commands have.

ghost use Rattle.std.specs.Prelude.{◌≡◌, ◌++◌, IfOk, OnOk};
ghost use Rattle.cycle_journal.specs.Writing.{kind_text};
ghost use Rattle.console_command.specs.Reports.{refusal_text, refused_text, script_text};

use crate::command::Report;
use crate::outcome::Verdict;
use plc_text::{FaultKind, NoMemory, Refusal, Text};
use std::alloc::Global;

/// The report that the bytes are no scenario: the line, from 1, is the first that cannot stand.
pub fn script_report(alloc: Global, line: u64) -> Result<Report, NoMemory>
    ensures verdict { IfOk result (λ report. report.verdict ≡ Verdict.Script) }
    ensures text { IfOk result (λ report. report.text ≡ script_text line) }
{
    let mut text = Text::copy(alloc, "script ")?;
    text.push_decimal(line)?;
    text.push_str("\n")?;
    Ok(Report {
        verdict: Verdict::Script,
        text,
    })
}

/// The kind of fault behind a refusal's line, where there is one.
fn push_kind(text: &mut Text, kind: Option<FaultKind>) -> Result<(), NoMemory>
    ensures { OnOk result (text.new ≡ text.old ++ kind_text kind) }
{
    let Some(kind) = kind else {
        return Ok(());
    };
    text.push_str(" ")?;
    text.push_str(kind.name())?;
    Ok(())
}

/// Adds the code, the declaration and the line of a refusal, and the kind of fault where there is one.
pub fn push_refusal(text: &mut Text, refusal: &Refusal) -> Result<(), NoMemory>
    ensures { OnOk result (text.new ≡ text.old ++ refusal_text refusal.now) }
{
    text.push_str(refusal.code.name())?;
    text.push_str(" ")?;
    text.push_str(refusal.declaration.as_str())?;
    text.push_str(" ")?;
    text.push_decimal(u64::from(refusal.line))?;
    push_kind(text, refusal.kind)?;
    Ok(())
}

/// The report that the first program is refused.
pub fn refused_report(alloc: Global, refusal: &Refusal) -> Result<Report, NoMemory>
    ensures verdict { IfOk result (λ report. report.verdict ≡ Verdict.Refused) }
    ensures text { IfOk result (λ report. report.text ≡ refused_text refusal.now) }
{
    let mut text = Text::copy(alloc, "refused ")?;
    push_refusal(&mut text, refusal)?;
    text.push_str("\n")?;
    Ok(Report {
        verdict: Verdict::Refused,
        text,
    })
}
