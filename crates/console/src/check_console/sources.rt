//! The lines of sources.

ghost use Rattle.std.specs.Prelude.{◌≡◌, ◌++◌, OnOk};
ghost use Rattle.plc_text.specs.Lines.{ended};
ghost use Rattle.console.specs.check_console.Report.{accepted_line, refused_line};
ghost use Rattle.console.specs.check_console.Private.Lines.{Adds, AddsLine};

use console_command::{Checker, push_refusal};
use plc_text::{Denied, NoMemory, Refusal, Text};
use reference_journal::give_back;
use st_names::Names;
use std::alloc::Global;

/// Adds the line of a source that is accepted.
fn push_accepted(out: &mut Text, name: &Text) -> Result<(), NoMemory>
    ensures { OnOk result (out.new ≡ out.old ++ ended (accepted_line name.now)) }
{
    out.push_str("source ")?;
    out.push_str(name.as_str())?;
    out.push_str(" accepted\n")?;
    Ok(())
}

/// Adds the line of a source that is refused.
fn push_refused(out: &mut Text, name: &Text, refusal: &Refusal) -> Result<(), NoMemory>
    ensures { OnOk result (out.new ≡ out.old ++ ended (refused_line name.now refusal.now)) }
{
    out.push_str("source ")?;
    out.push_str(name.as_str())?;
    out.push_str(" refused ")?;
    push_refusal(out, refusal)?;
    out.push_str("\n")?;
    Ok(())
}

/// Adds the line of a source.
fn push_source<J: Checker>(
    alloc: Global,
    out: &mut Text,
    name: &Text,
    text: &Text,
) -> Result<(), NoMemory>
    ensures { OnOk result (AddsLine J.accepts J.refuses (name.now, text.now) out.old out.new) }
{
    match J::check(alloc, text) {
        Ok(program) => {
            give_back(program);
            push_accepted(out, name)?;
            Ok(())
        }
        Err(Denied::Refused(refusal)) => {
            push_refused(out, name, &refusal)?;
            Ok(())
        }
        Err(Denied::NoMemory) => Err(NoMemory),
    }
}

/// Adds the lines of sources, in their order.
pub fn push_sources<J: Checker>(
    alloc: Global,
    out: &mut Text,
    sources: &Names<Text>,
) -> Result<(), NoMemory>
    ensures { OnOk result (Adds J.accepts J.refuses sources.now out.old out.new) }
{
    for n in 0..sources.len() {
        push_source::<J>(alloc, out, sources.key(n), sources.at(n))?;
    }
    Ok(())
}
