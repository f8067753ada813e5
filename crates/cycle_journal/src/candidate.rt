//! The entry that a line may be.

ghost use Rattle.std.specs.Prelude.{◌≡◌, ℕ};
ghost use Rattle.plc_text.specs.Code.{is_e17};
ghost use Rattle.cycle_journal.specs.Private.Candidate.{Gives, done_in, ended_in, fault_in, refusal_of as refusal_of_parts, refusal_in, refused_in, answer_of, behind_play as behind_play_of, answer_in, entry_in};

use crate::entry::{Answer, Entry};
use crate::fields::{code, fault_kind, kind, number, outputs};
use crate::line_error::LineError;
use crate::play::Play;
use crate::writing::play_numbered;
use plc_text::{Code, Fault, FaultKind, Refusal, Text, split_field};
use std::alloc::Global;

/// A candidate for the entry of a line. An entry's own line gives the entry.
#[tactic(auto, unfolding(crate::specs::Private::Candidate::entry_in))]
pub fn candidate(alloc: Global, plays: &[Play], line: &str) -> Result<Entry, LineError>
    ensures { Gives result (entry_in plays.now line.now) }
{
    let (field, text) = split_field(line);
    let version = number(field)?;
    let (field, text) = split_field(text);
    let play = number(field)?;
    match play_numbered(plays, play) {
        None => Err(LineError::Bad),
        Some(found) => {
            let answer = answer(alloc, found, text)?;
            Ok(Entry {
                version,
                play,
                answer,
            })
        }
    }
}

/// The answer that stands behind the fields of a play.
#[tactic(auto, unfolding(crate::specs::Private::Candidate::answer_in))]
fn answer(alloc: Global, play: &Play, text: &str) -> Result<Answer, LineError>
    ensures { Gives result (answer_in play.now text.now) }
{
    let (field, rest) = split_field(behind_play(play, text));
    answer_of(alloc, field, rest)
}

/// What stands behind the fields of a play.
fn behind_play<'a>(play: &Play, text: &'a str) -> &'a str
    ensures { result.now ≡ behind_play_of play.now text.now }
{
    let behind = split_field(split_field(text).1).1;
    match play {
        Play::Cycle { .. } => split_field(behind).1,
        _ => behind,
    }
}

/// The answer of a word and what stands behind it.
#[tactic(auto, unfolding(crate::specs::Private::Candidate::answer_of))]
fn answer_of(alloc: Global, word: &str, text: &str) -> Result<Answer, LineError>
    ensures { Gives result (answer_of word.now text.now) }
{
    if word == "ok" {
        ended(text)
    } else if word == "fault" {
        fault(text)
    } else if word == "held" {
        Ok(Answer::Held)
    } else if word == "notask" {
        Ok(Answer::NoTask(number(text)?))
    } else if word == "loaded" {
        Ok(Answer::Loaded(number(text)?))
    } else if word == "refused" {
        refused(alloc, text)
    } else {
        Err(LineError::Bad)
    }
}

#[tactic(auto, unfolding(crate::specs::Private::Candidate::ended_in))]
fn ended(text: &str) -> Result<Answer, LineError>
    ensures { Gives result (ended_in text.now) }
{
    if text.is_empty() {
        return Ok(Answer::Released);
    }
    done(text)
}

#[tactic(auto, unfolding(crate::specs::Private::Candidate::done_in))]
fn done(text: &str) -> Result<Answer, LineError>
    ensures { Gives result (done_in text.now) }
{
    let (field, rest) = split_field(text);
    let ticks = number(field)?;
    let outputs = outputs(rest)?;
    Ok(Answer::Done { ticks, outputs })
}

#[tactic(auto, unfolding(crate::specs::Private::Candidate::fault_in))]
fn fault(text: &str) -> Result<Answer, LineError>
    ensures { Gives result (fault_in text.now) }
{
    let (field, rest) = split_field(text);
    let kind = fault_kind(field)?;
    let line = number(rest)?;
    Ok(Answer::Fault(Fault { kind, line }))
}

#[tactic(auto, unfolding(crate::specs::Private::Candidate::refused_in))]
fn refused(alloc: Global, text: &str) -> Result<Answer, LineError>
    ensures { Gives result (refused_in text.now) }
{
    if text == "memory" {
        return Ok(Answer::RefusedMemory);
    }
    let refusal = refusal(alloc, text)?;
    Ok(Answer::Refused(refusal))
}

#[tactic(auto, unfolding(crate::specs::Private::Candidate::refusal_in))]
fn refusal(alloc: Global, text: &str) -> Result<Refusal, LineError>
    ensures { Gives result (refusal_in text.now) }
{
    let (field, text) = split_field(text);
    let code = code(field)?;
    let (declaration, text) = split_field(text);
    let (field, text) = split_field(text);
    let line = number(field)?;
    let kind = kind(text)?;
    let declaration = Text::copy(alloc, declaration)?;
    refusal_of(code, declaration, line, kind)
}

/// The refusal of these parts, which has a kind of fault exactly at E17.
#[tactic(auto, unfolding(crate::specs::Private::Candidate::refusal_of))]
fn refusal_of(
    code: Code,
    declaration: Text,
    line: u32,
    kind: Option<FaultKind>,
) -> Result<Refusal, LineError>
    ensures { Gives result (refusal_of_parts code declaration line kind) }
{
    if kind.is_some() == is_e17(code) {
        Ok(Refusal {
            code,
            declaration,
            line,
            kind,
        })
    } else {
        Err(LineError::Bad)
    }
}

fn is_e17(code: Code) -> bool
    ensures { result ≡ is_e17 code }
{
    matches!(code, Code::E17)
}
