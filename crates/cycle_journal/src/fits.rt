//! Whether an entry is one for the plays.

ghost use Rattle.std.specs.Prelude.{◌≡◌, ◌↔◌, ◌&&◌, not, IsTrue};
ghost use Rattle.plc_text.specs.Words.{is_upper_word as is_upper_word_of};
ghost use Rattle.st_tree.specs.Terminal.{is_keyword as is_keyword_of};
ghost use Rattle.cycle_journal.specs.Fits.{may_answer as may_answer_of, is_declaration as is_declaration_of, FitsAnswer, FitsEntry};

use crate::entry::{Answer, Entry};
use crate::outputs::OUTPUT_LIMIT;
use crate::play::Play;
use crate::writing::play_numbered;
use plc_text::is_upper_word;
use st_tree::is_keyword;

/// Whether the entry is one for these plays.
pub fn fits_plays(plays: &[Play], entry: &Entry) -> bool
    ensures { IsTrue result ↔ FitsEntry plays.now entry.now }
{
    match play_numbered(plays, entry.play) {
        Some(play) => may_answer(play, &entry.answer) && fits_answer(entry.version, &entry.answer),
        None => false,
    }
}

/// Whether a play of this kind may have an answer of this kind.
fn may_answer(play: &Play, answer: &Answer) -> bool
    ensures { result ≡ may_answer_of play.now answer.now }
{
    match (play, answer) {
        (Play::Cycle { .. }, Answer::Done { .. } | Answer::Fault(_) | Answer::Held) => true,
        (Play::Cycle { .. } | Play::Reset { .. }, Answer::NoTask(_)) => true,
        (Play::Change { .. }, Answer::Loaded(_) | Answer::Refused(_) | Answer::RefusedMemory) => {
            true
        }
        (Play::Reset { .. }, Answer::Released) => true,
        _ => false,
    }
}

fn fits_answer(version: u32, answer: &Answer) -> bool
    ensures { IsTrue result ↔ FitsAnswer version answer.now }
{
    // A number that is read is known to be one of 32 bits.
    match answer {
        Answer::Done { ticks, outputs } => {
            let _ticks = *ticks;
            outputs.len() <= OUTPUT_LIMIT
        }
        Answer::Fault(fault) => {
            let _line = fault.line;
            true
        }
        Answer::NoTask(since) => {
            let _since = *since;
            true
        }
        Answer::Loaded(next) => version.checked_add(1) == Some(*next),
        Answer::Refused(refusal) => {
            let _line = refusal.line;
            is_declaration(refusal.declaration.as_str())
        }
        Answer::Held | Answer::RefusedMemory | Answer::Released => true,
    }
}

/// Whether a refusal may name this: a dash, or a name in upper case.
fn is_declaration(text: &str) -> bool
    ensures { result ≡ is_declaration_of text.now }
{
    text == "-" || is_upper_name(text.as_bytes())
}

fn is_upper_name(text: &[u8]) -> bool
    ensures { result ≡ (is_upper_word_of text.now && not (is_keyword_of text.now)) }
{
    is_upper_word(text) && !is_keyword(text)
}
