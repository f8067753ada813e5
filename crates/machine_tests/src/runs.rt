//! Code of the machine that is written as text. `valid INSTRUCTIONS` asks whether the code is valid that has them, `list INSTRUCTIONS`
//! for its listing, `run TICKS INSTRUCTIONS` runs the first body twice in one room, and `hook ROUTINE FLAG FLAG TICKS` runs a routine as
//! a hook on the instance in region 0. A run tells the ticks that are left or the line of its fault, and the first 16 bytes of region 0.
ghost use Rattle.std.specs.Prelude.{◌≡◌};
ghost use Rattle.cycle_machine.specs.Room.{IsRoomFor};

use crate::code::{machine_code, numbers, small};
use cycle_machine::{Room, run_body, run_hook_body};
use mem_image::{Image, Regions};
use plc_text::{NoMemory, Text, split_field};
use stack_code::{Address, Outcome, Space, ValidCode, listing, validate};
use std::alloc::Global;

/// Adds the image of a region: 64 bytes, of which the first is the number.
fn add_image(alloc: Global, regions: &mut Regions, region: u32, first: u8) -> Result<(), NoMemory> {
    let mut image = Image::new(alloc, 64)?;
    if image.len() >= 1 {
        image.fill_from(0, &[first]);
    }
    if region < regions.len() && regions.at(region).is_none() {
        regions.put(region, image);
    }
    Ok(())
}

/// Region 0 for a program, regions 1 and 2 with instances of the classes 0 and 1, and region 3, which is away.
fn regions(alloc: Global) -> Result<Regions, NoMemory> {
    let mut regions = Regions::new(alloc, 4)?;
    add_image(alloc, &mut regions, 0, 0)?;
    add_image(alloc, &mut regions, 1, 0)?;
    add_image(alloc, &mut regions, 2, 1)?;
    Ok(regions)
}

/// Adds how a run ended, and the first bytes of region 0.
fn push_run(told: &mut Text, outcome: Option<Outcome>, regions: &Regions) -> Result<(), NoMemory> {
    let (ending, number) = match outcome {
        None => ("stuck", 0),
        Some(Outcome::Done(ticks)) => ("done", ticks),
        Some(Outcome::Fault(fault)) => (fault.kind.name(), fault.line),
    };
    told.push_str(ending)?;
    told.push_str(" ")?;
    told.push_decimal(u64::from(number))?;
    told.push_str(" ")?;
    if regions.is_empty() {
        return Ok(());
    }
    match regions.at(0) {
        Some(image) => {
            let length = image.len().min(16);
            told.push_hex(image.part(0, length))
        }
        None => Ok(()),
    }
}

/// Adds what a run of the first body on new regions comes to.
fn run_once(
    alloc: Global,
    told: &mut Text,
    code: &ValidCode,
    room: &mut Room,
    ticks: u32,
) -> Result<(), NoMemory>
    requires { IsRoomFor code.now room.old }
    ensures { room.new ≡ room.old }
{
    let mut regions = regions(alloc)?;
    let outcome = run_body(code, &mut regions, room, 0, 77, ticks);
    push_run(told, outcome, &regions)
}

/// Adds what two runs in a room come to.
fn run_in(
    alloc: Global,
    told: &mut Text,
    code: &ValidCode,
    room: &mut Room,
    ticks: u32,
) -> Result<(), NoMemory>
    requires { IsRoomFor code.now room.old }
{
    let mut second = Text::new(alloc);
    run_once(alloc, told, code, room, ticks)?;
    run_once(alloc, &mut second, code, room, ticks)?;
    if told.as_str() != second.as_str() {
        told.push_str(", then ")?;
        told.push_str(second.as_str())?;
    }
    Ok(())
}

/// Adds what two runs in one room come to.
fn run_twice(alloc: Global, told: &mut Text, code: &ValidCode, ticks: u32) -> Result<(), NoMemory> {
    let mut room = Room::new(alloc, code)?;
    run_in(alloc, told, code, &mut room, ticks)
}

/// Adds what a hook comes to.
fn run_hook(alloc: Global, told: &mut Text, code: &ValidCode, words: &str) -> Result<(), NoMemory> {
    let [routine, first, second, ticks] = numbers(words);
    let mut room = Room::new(alloc, code)?;
    let mut regions = regions(alloc)?;
    let own = Address {
        space: Space::Regions,
        index: 0,
        offset: 0,
    };
    let flags = (first == 1, second == 1);
    let outcome = run_hook_body(code, &mut regions, &mut room, routine, own, flags, ticks);
    push_run(told, outcome, &regions)
}

fn tell_of(
    alloc: Global,
    told: &mut Text,
    code: &ValidCode,
    question: &str,
    words: &str,
) -> Result<(), NoMemory> {
    match question {
        "run" => run_twice(alloc, told, code, small(split_field(words).0)),
        "hook" => run_hook(alloc, told, code, words),
        "list" => {
            let text = listing(alloc, code)?;
            told.push_str("\n")?;
            told.push_str(text.as_str())
        }
        _ => told.push_str("yes"),
    }
}

/// Adds the answer to a question on code.
pub fn tell(
    alloc: Global,
    told: &mut Text,
    text: &str,
    question: &str,
    words: &str,
) -> Result<(), NoMemory> {
    let asked = match question {
        "run" => split_field(words).1,
        "hook" => ". END",
        _ => words,
    };
    let code = machine_code(alloc, text, asked)?;
    match validate(alloc, code)? {
        Some(valid) => tell_of(alloc, told, &valid, question, words),
        None => told.push_str("no"),
    }
}
