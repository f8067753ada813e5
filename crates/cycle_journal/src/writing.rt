//! The text of a journal.

ghost use Rattle.std.specs.Prelude.{◌≡◌, ◌++◌, List, codes, decimal, IfOk, OnOk};
ghost use Rattle.std.specs.List.{flat_map};
ghost use Rattle.std.specs.Option.{option_copied};
ghost use Rattle.cycle_journal.specs.Play.{play_numbered as play_of_number};
ghost use Rattle.cycle_journal.specs.Writing.{image, kind_text, answer_text, play_text, entry_text, journal_text as journal_text_of};
ghost use Rattle.plc_text.specs.Lines.{ended};

use crate::entry::{Answer, Entry};
use crate::play::Play;
use plc_text::{Fault, FaultKind, NoMemory, Refusal, Text};
use std::alloc::Global;

/// The journal's text.
pub fn journal_text(alloc: Global, plays: &[Play], entries: &[Entry]) -> Result<Text, NoMemory>
    ensures { IfOk result (λ text. text ≡ journal_text_of plays.now entries.now) }
{
    let mut text = Text::new(alloc);
    text.push_str("load 1\n")?;
    push_entries(&mut text, plays, entries)?;
    text.push_str("end ")?;
    text.push_decimal(entries.len() as u64)?;
    text.push_str("\n")?;
    Ok(text)
}

/// A line for each entry.
fn push_entries(text: &mut Text, plays: &[Play], entries: &[Entry]) -> Result<(), NoMemory>
    ensures { OnOk result (text.new ≡ text.old ++ flat_map (λ e. ended (entry_text plays.now e)) entries.now) }
{
    for entry in entries {
        push_entry(text, plays, entry)?;
        text.push_str("\n")?;
    }
    Ok(())
}

/// The entry's line, without the LF that ends it.
pub fn push_entry(text: &mut Text, plays: &[Play], entry: &Entry) -> Result<(), NoMemory>
    ensures { OnOk result (text.new ≡ text.old ++ entry_text plays.now entry.now) }
{
    push_field(text, entry.version)?;
    push_field(text, entry.play)?;
    push_play(text, play_numbered(plays, entry.play))?;
    text.push_str(" ")?;
    push_answer(text, &entry.answer)
}

/// A number and the space that ends its field.
fn push_field(text: &mut Text, number: u32) -> Result<(), NoMemory>
    ensures { OnOk result (text.new ≡ text.old ++ (decimal number ++ codes " ")) }
{
    text.push_decimal(u64::from(number))?;
    text.push_str(" ")
}

/// The play of this number, if there is one.
pub fn play_numbered(plays: &[Play], number: u32) -> Option<&Play>
    ensures { option_copied result ≡ play_of_number plays.now number }
{
    let index = (number as usize).checked_sub(1)?;
    plays.get(index)
}

/// The play as the journal names it.
fn push_play(text: &mut Text, play: Option<&Play>) -> Result<(), NoMemory>
    ensures { OnOk result (text.new ≡ text.old ++ play_text (option_copied play.entry)) }
{
    match play {
        None => Ok(()),
        Some(Play::Cycle { task, now, .. }) => {
            push_word(text, "cycle ", task)?;
            text.push_str(" ")?;
            text.push_decimal(u64::from(*now))
        }
        Some(Play::Change { name, .. }) => push_word(text, "change ", name),
        Some(Play::Reset { task }) => push_word(text, "reset ", task),
    }
}

/// A word and a name behind it.
fn push_word(text: &mut Text, word: &str, name: &Text) -> Result<(), NoMemory>
    ensures { OnOk result (text.new ≡ text.old ++ (word.now ++ name.now)) }
{
    text.push_str(word)?;
    text.push_str(name.as_str())
}

/// A word and a number behind it.
fn push_number(text: &mut Text, word: &str, number: u32) -> Result<(), NoMemory>
    ensures { OnOk result (text.new ≡ text.old ++ (word.now ++ decimal number)) }
{
    text.push_str(word)?;
    text.push_decimal(u64::from(number))
}

fn push_answer(text: &mut Text, answer: &Answer) -> Result<(), NoMemory>
    ensures { OnOk result (text.new ≡ text.old ++ answer_text answer.now) }
{
    match answer {
        Answer::Done { ticks, outputs } => {
            text.push_str("ok ")?;
            push_field(text, *ticks)?;
            push_image(text, outputs.as_slice())
        }
        Answer::Fault(fault) => push_fault(text, fault),
        Answer::Held => text.push_str("held"),
        Answer::NoTask(since) => push_number(text, "notask ", *since),
        Answer::Loaded(version) => push_number(text, "loaded ", *version),
        Answer::Refused(refusal) => push_refusal(text, refusal),
        Answer::RefusedMemory => text.push_str("refused memory"),
        Answer::Released => text.push_str("ok"),
    }
}

/// Output bytes in hexadecimal, or a dash for none, so that the field is never empty.
fn push_image(text: &mut Text, outputs: &[u8]) -> Result<(), NoMemory>
    ensures { OnOk result (text.new ≡ text.old ++ image outputs.now) }
{
    if outputs.is_empty() {
        text.push_str("-")
    } else {
        text.push_hex(outputs)
    }
}

fn push_fault(text: &mut Text, fault: &Fault) -> Result<(), NoMemory>
    ensures { OnOk result (text.new ≡ text.old ++ answer_text (Answer.Fault fault.now)) }
{
    text.push_str("fault ")?;
    text.push_str(fault.kind.name())?;
    text.push_str(" ")?;
    text.push_decimal(u64::from(fault.line))
}

fn push_refusal(text: &mut Text, refusal: &Refusal) -> Result<(), NoMemory>
    ensures { OnOk result (text.new ≡ text.old ++ answer_text (Answer.Refused refusal.now)) }
{
    text.push_str("refused ")?;
    text.push_str(refusal.code.name())?;
    text.push_str(" ")?;
    text.push_str(refusal.declaration.as_str())?;
    text.push_str(" ")?;
    text.push_decimal(u64::from(refusal.line))?;
    push_kind(text, refusal.kind)
}

/// The kind of fault behind a refusal's line, where there is one.
fn push_kind(text: &mut Text, kind: Option<FaultKind>) -> Result<(), NoMemory>
    ensures { OnOk result (text.new ≡ text.old ++ kind_text kind) }
{
    let Some(kind) = kind else {
        return Ok(());
    };
    text.push_str(" ")?;
    text.push_str(kind.name())
}
