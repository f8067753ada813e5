//! The reader of journals, and the scenario that is made of a number. `journal LINES`, with `;` for the end of each, reads a journal of the
//! plays of the text, which is a scenario. `load ROUNDS` makes a scenario.

use crate::layout;
use console_command::Checker;
use cycle_journal::{Entry, JournalError, Play, are_named, journal_text, read_journal};
use plc_text::{NoMemory, Text, number};
use scenario::{Scenario, make_load, read_scenario};
use std::alloc::Global;

/// Adds how many entries were read of a journal, and whether they have its text.
fn push_read(
    alloc: Global,
    told: &mut Text,
    plays: &[Play],
    entries: &[Entry],
    journal: &str,
) -> Result<(), NoMemory> {
    told.push_decimal(entries.len() as u64)?;
    let text = journal_text(alloc, plays, entries)?;
    told.push_str(if text.as_str() == journal {
        " entries"
    } else {
        " other entries"
    })
}

/// Adds what is read of a journal, or the line that is bad.
fn tell_entries(
    alloc: Global,
    told: &mut Text,
    plays: &[Play],
    journal: &str,
) -> Result<(), NoMemory> {
    if !are_named(plays) || journal.len() >= u32::MAX as usize {
        return told.push_str("too long");
    }
    match read_journal(alloc, plays, journal) {
        Ok(entries) => push_read(alloc, told, plays, entries.as_slice(), journal),
        Err(JournalError::Bad(line)) => {
            told.push_str("bad ")?;
            told.push_decimal(u64::from(line))
        }
        Err(JournalError::NoMemory) => Err(NoMemory),
    }
}

/// Adds what is read of the lines of a journal.
pub fn tell(alloc: Global, told: &mut Text, text: &str, lines: &str) -> Result<(), NoMemory> {
    let journal = lines.replace(alloc, ';', "\n")?;
    if text.len() >= u32::MAX as usize {
        return told.push_str("too long");
    }
    match read_scenario(alloc, text.as_bytes()) {
        Ok(scenario) => tell_entries(alloc, told, scenario.plays.as_slice(), journal.as_str()),
        Err(_) => told.push_str("no scenario"),
    }
}

/// Adds how many plays and phases a scenario has, and whether its program is accepted.
fn push_scenario<J: Checker>(
    alloc: Global,
    told: &mut Text,
    scenario: &Scenario,
) -> Result<(), NoMemory> {
    told.push_decimal(scenario.plays.len() as u64)?;
    told.push_str(" plays, ")?;
    told.push_decimal(scenario.phases.len() as u64)?;
    told.push_str(" phases, ")?;
    layout::tell::<J>(alloc, told, scenario.program.as_str(), "judge", "")
}

/// Adds what the scenario is that is made of a number.
pub fn tell_load<J: Checker>(alloc: Global, told: &mut Text, words: &str) -> Result<(), NoMemory> {
    let rounds = number(words).unwrap_or(0);
    if rounds > 250 {
        return told.push_str("too many");
    }
    let made = make_load(alloc, rounds)?;
    push_scenario::<J>(alloc, told, &made)
}
