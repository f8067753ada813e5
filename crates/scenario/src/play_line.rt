//! The play of a line.

ghost use Rattle.std.specs.Prelude.{◌≡◌, IfOk};
ghost use Rattle.st_names.specs.Names.{AreDistinct};
ghost use Rattle.scenario.specs.Private.PlayLine as reading;

use cycle_journal::Play;
use hex::FromHexError;
use plc_text::{Items, NoMemory, Text, is_word, number, split_field};
use st_names::Names;
use std::alloc::Global;

/// How many hexadecimal digits of input a cycle may have: two for each of 256 bytes.
const INPUT_DIGITS: usize = 512;

/// The play of the line, if it is one's.
#[tactic(auto, unfolding(crate::specs::Private::PlayLine::play_in))]
pub fn read_play(alloc: Global, sources: &Names<Text>, line: &str) -> Result<Option<Play>, NoMemory>
    ensures { IfOk result (λ play. play ≡ reading.play_in sources.now line.now) }
{
    if let Some(text) = line.strip_prefix("cycle ") {
        read_cycle(alloc, text)
    } else if let Some(name) = line.strip_prefix("change ") {
        read_change(alloc, sources, name)
    } else if let Some(name) = line.strip_prefix("reset ") {
        read_reset(alloc, name)
    } else {
        Ok(None)
    }
}

/// The cycle of a task, a moment and an input.
#[tactic(auto, unfolding(crate::specs::Private::PlayLine::cycle_in))]
fn read_cycle(alloc: Global, text: &str) -> Result<Option<Play>, NoMemory>
    ensures { IfOk result (λ play. play ≡ reading.cycle_in text.now) }
{
    let (task, text) = split_field(text);
    if !is_word(task.as_bytes()) {
        return Ok(None);
    }
    let task = Text::folded(alloc, task)?;
    read_cycle_of(alloc, task, text)
}

/// The cycle of this task at a moment with an input.
#[tactic(auto, unfolding(crate::specs::Private::PlayLine::cycle_at))]
fn read_cycle_of(alloc: Global, task: Text, text: &str) -> Result<Option<Play>, NoMemory>
    ensures { IfOk result (λ play. play ≡ reading.cycle_at task text.now) }
{
    let (digits, field) = split_field(text);
    let Some(now) = number(digits) else {
        return Ok(None);
    };
    match read_input(alloc, field)? {
        Some(input) => Ok(Some(Play::Cycle { task, now, input })),
        None => Ok(None),
    }
}

/// The input bytes that the field says.
#[tactic(auto, unfolding(crate::specs::Private::PlayLine::input_in))]
fn read_input(alloc: Global, field: &str) -> Result<Option<Items<u8>>, NoMemory>
    ensures { IfOk result (λ input. input ≡ reading.input_in field.now) }
{
    if field == "-" {
        return Ok(Some(Items::new(alloc)));
    }
    read_bytes(alloc, field)
}

/// The bytes of hexadecimal digits, where they are some and not too many.
#[tactic(auto, unfolding(crate::specs::Private::PlayLine::bytes_in))]
fn read_bytes(alloc: Global, field: &str) -> Result<Option<Items<u8>>, NoMemory>
    ensures { IfOk result (λ input. input ≡ reading.bytes_in field.now) }
{
    if field.is_empty() || field.len() > INPUT_DIGITS {
        return Ok(None);
    }
    match hex::decode(alloc, field) {
        Ok(bytes) => Ok(Some(Items::from_vec(bytes))),
        Err(FromHexError::OutOfMemory) => Err(NoMemory),
        Err(_) => Ok(None),
    }
}

/// The change that loads the source of this name.
#[tactic(auto, unfolding(crate::specs::Private::PlayLine::change_in))]
fn read_change(alloc: Global, sources: &Names<Text>, name: &str) -> Result<Option<Play>, NoMemory>
    ensures { IfOk result (λ play. play ≡ reading.change_in sources.now name.now) }
{
    if !is_word(name.as_bytes()) {
        return Ok(None);
    }
    let name = Text::folded(alloc, name)?;
    match place_of(sources, &name) {
        Some(source) => Ok(Some(Play::Change { name, source })),
        None => Ok(None),
    }
}

/// The place of the name among the sources.
pub fn place_of(sources: &Names<Text>, name: &Text) -> Option<u32>
    ensures place { result ≡ reading.place_of sources.now name.now }
    ensures distinct { AreDistinct sources.now }
{
    sources.find(name)
}

/// The reset of a task.
#[tactic(auto, unfolding(crate::specs::Private::PlayLine::reset_in))]
fn read_reset(alloc: Global, name: &str) -> Result<Option<Play>, NoMemory>
    ensures { IfOk result (λ play. play ≡ reading.reset_in name.now) }
{
    if !is_word(name.as_bytes()) {
        return Ok(None);
    }
    let task = Text::folded(alloc, name)?;
    Ok(Some(Play::Reset { task }))
}
