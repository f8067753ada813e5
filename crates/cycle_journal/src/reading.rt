//! The journal that a text is.

ghost use Rattle.std.specs.Prelude.{◌≡◌, ◌↔◌, ℕ, ◌+◌, ◌<◌, ◌≤◌, ◌^◌, List, [], ◌∷◌, ◌++◌, length, codes, IsTrue, MatchBool, IfOk, IfErr};
ghost use Rattle.cycle_journal.specs.declared.entry.Entry.{Entry as one_entry};
ghost use Rattle.cycle_journal.specs.declared.play.Play.{Play as one_play};
ghost use Rattle.cycle_journal.specs.Fits.{Fits, FitsEntry};
ghost use Rattle.cycle_journal.specs.Play.{Named};
ghost use Rattle.cycle_journal.specs.Writing.{entry_text, journal_text};
ghost use Rattle.plc_text.specs.Lines.{lines_of, FirstBad};
ghost use Rattle.cycle_journal.specs.Reading.{OnBad, NoJournal, CanBegin};
ghost use Rattle.cycle_journal.specs.Private.Reading.{end_line, OnBadLine, IsNoEntry, Stops, AreEntries};

use crate::candidate::candidate;
use crate::entry::Entry;
use crate::fits::fits_plays;
use crate::journal_error::JournalError;
use crate::line_error::LineError;
use crate::play::Play;
use crate::writing::push_entry;
use itoa::Buffer;
use plc_text::{Items, Lines, NoMemory, Text};
use std::alloc::Global;

/// The journal that the text is. The plays have names in upper case, and the text is so short that its lines can be counted.
pub fn read_journal(alloc: Global, plays: &[Play], text: &str) -> Result<Items<Entry>, JournalError>
    requires named { Named plays.now }
    requires size { length text.now < 4294967295 }
    // The entries fit, and the text is theirs.
    ensures ok { IfOk result (λ entries. Fits plays.now entries × (text.now ≡ journal_text plays.now entries)) }
    // No entries that fit have the text, and the line is the first that no journal has behind the lines before it.
    ensures bad { IfErr result (λ e. OnBad e (λ line. NoJournal plays.now text.now × FirstBad (CanBegin plays.now) (lines_of text.now) line)) }
{
    let mut lines = Lines::new(text);
    if !takes_first(&mut lines) {
        return Err(JournalError::Bad(1));
    }
    let entries = read_entries(alloc, plays, &mut lines)?;
    if !is_over(&mut lines, text) {
        return Err(JournalError::Bad(entries.len() as u32 + 3));
    }
    Ok(entries)
}

/// Different journals that fit the same plays have different texts, so the text determines the journal.
pub fn one_journal()
    ensures { (plays : List one_play) (entries others : List one_entry) → Named plays → Fits plays entries → Fits plays others
        → journal_text plays entries ≡ journal_text plays others → entries ≡ others }
{}

/// Reads the first line, which has to be that of every journal.
fn takes_first(lines: &mut Lines<'_>) -> bool
    ensures { MatchBool result (lines.old ≡ codes "load 1" ∷ lines.new) ((after : List (List ℕ)) → lines.old ≡ codes "load 1" ∷ after → ⊥) }
{
    match lines.next_line() {
        Some(line) => line == "load 1",
        None => false,
    }
}

/// Whether no line is left, and the last one of the text is ended.
fn is_over(lines: &mut Lines<'_>, text: &str) -> bool
    ensures { IsTrue result ↔ ((lines.old ≡ []) × ((front : List ℕ) × (text.now ≡ front ++ 10 ∷ []))) }
{
    lines.next_line().is_none() && is_ended(text)
}

/// Whether an LF ends the text's last line.
fn is_ended(text: &str) -> bool
    ensures { IsTrue result ↔ ((front : List ℕ) × (text.now ≡ front ++ 10 ∷ [])) }
{
    text.ends_with("\n")
}

/// The entries of the lines up to the last line, which is taken too.
fn read_entries(
    alloc: Global,
    plays: &[Play],
    lines: &mut Lines<'_>,
) -> Result<Items<Entry>, JournalError>
    requires named { Named plays.now }
    requires size { length lines.old < 4294967294 }
    ensures ok { IfOk result (λ entries. AreEntries plays.now lines.old entries lines.new) }
    ensures bad { IfErr result (λ e. OnBad e (Stops plays.now lines.old)) }
{
    let mut entries = Items::new(alloc);
    while let Some(line) = lines.next_line() {
        if is_end(line, entries.len()) {
            return Ok(entries);
        }
        let number = entries.len() as u32 + 2;
        let entry = entry_at(alloc, plays, line, number)?;
        entries.push(entry)?;
    }
    Err(JournalError::Bad(entries.len() as u32 + 2))
}

/// The entry of the line of this number.
fn entry_at(alloc: Global, plays: &[Play], line: &str, number: u32) -> Result<Entry, JournalError>
    requires { Named plays.now }
    ensures ok { IfOk result (λ e. FitsEntry plays.now e × (line.now ≡ entry_text plays.now e)) }
    ensures bad { IfErr result (λ e. OnBad e (λ bad. (bad ≡ number) × IsNoEntry plays.now line.now)) }
{
    match read_entry(alloc, plays, line) {
        Ok(entry) => Ok(entry),
        Err(LineError::Bad) => Err(JournalError::Bad(number)),
        Err(LineError::NoMemory) => Err(JournalError::NoMemory),
    }
}

/// Whether the line is the last one of a journal of so many entries.
fn is_end(line: &str, count: usize) -> bool
    ensures { IsTrue result ↔ (line.now ≡ end_line count) }
{
    match line.strip_prefix("end ") {
        Some(digits) => digits == Buffer::new().format(count as u64),
        None => false,
    }
}

/// The entry whose line it is.
fn read_entry(alloc: Global, plays: &[Play], line: &str) -> Result<Entry, LineError>
    requires { Named plays.now }
    ensures ok { IfOk result (λ e. FitsEntry plays.now e × (line.now ≡ entry_text plays.now e)) }
    ensures bad { IfErr result (λ e. OnBadLine e (IsNoEntry plays.now line.now)) }
{
    let entry = candidate(alloc, plays, line)?;
    if is_line_of(alloc, plays, &entry, line)? {
        Ok(entry)
    } else {
        Err(LineError::Bad)
    }
}

/// Whether the entry is one for these plays, and the line is its own.
fn is_line_of(alloc: Global, plays: &[Play], entry: &Entry, line: &str) -> Result<bool, NoMemory>
    ensures { IfOk result (λ is. IsTrue is ↔ (FitsEntry plays.now entry.now × (line.now ≡ entry_text plays.now entry.now))) }
{
    if !fits_plays(plays, entry) {
        return Ok(false);
    }
    let mut text = Text::new(alloc);
    push_entry(&mut text, plays, entry)?;
    Ok(text.as_str() == line)
}
