//! What a checked program takes in memory, and what its tasks touch. The text is a source. `judge` asks whether it is accepted, `place PATH`
//! where a value lies and what begins there, `at REGION OFFSET` what begins at a place, `size REGION` for the bytes of a region by itself
//! and of its type, and for its alignment, `image REGION` for the bytes with which it begins, `touches TASK` and `alters TASK` for the
//! regions that a task touches and writes. A path is the number of a region, and behind `/` the steps, `fN` to a field or a variable and
//! `N` to an element, with `.` between.

ghost use Rattle.std.specs.Prelude.{◌≡◌};

use console_command::Checker;
use footprints::{footprint, writes};
use mem_image::{At, Regions};
use mem_layout::Layout;
use mem_layout::initial_images::initial_images;
use plc_text::{NoMemory, Text, number, split_field};
use reference_journal::give_back;
use st_tree::{Path, Program, Step, Steps};
use std::alloc::Global;

fn push_numbers(told: &mut Text, numbers: &[u32]) -> Result<(), NoMemory> {
    if numbers.is_empty() {
        return told.push_str("none");
    }
    let mut before = "";
    for one in numbers {
        told.push_str(before)?;
        told.push_decimal(u64::from(*one))?;
        before = " ";
    }
    Ok(())
}

/// A number of 32 bits, 0 where the word is none.
fn small(word: &str) -> u32 {
    number(word).unwrap_or(0)
}

fn step(word: &str) -> Step {
    match word.strip_prefix('f') {
        Some(field) => Step::Field(small(field)),
        None => Step::Element(word.parse().unwrap_or(0)),
    }
}

fn path(alloc: Global, text: &str) -> Result<Path, NoMemory> {
    let (region, behind) = match text.split_once('/') {
        Some(parts) => parts,
        None => (text, ""),
    };
    let mut steps = Steps::new(alloc);
    for word in behind.split('.') {
        if !word.is_empty() {
            steps.push(step(word))?;
        }
    }
    Ok(Path {
        region: small(region),
        steps,
    })
}

fn push_path(alloc: Global, told: &mut Text, path: &Path) -> Result<(), NoMemory> {
    told.push_decimal(u64::from(path.region))?;
    let mut before = "/";
    for step in path.steps.as_slice() {
        let word = match step {
            Step::Field(field) => format!(in alloc; "f{field}")?,
            Step::Element(index) => format!(in alloc; "{index}")?,
        };
        told.push_str(before)?;
        told.push_str(word.as_str())?;
        before = ".";
    }
    Ok(())
}

/// Adds what begins at a place.
fn push_beginning(alloc: Global, told: &mut Text, layout: &Layout, at: At) -> Result<(), NoMemory> {
    let path = layout.path_of(alloc, at)?;
    match &path {
        Some(path) => push_path(alloc, told, path),
        None => told.push_str("none"),
    }
}

/// Adds where the value lies to which a path leads, and what begins there.
fn tell_place(alloc: Global, told: &mut Text, layout: &Layout, text: &str) -> Result<(), NoMemory> {
    let path = path(alloc, text)?;
    match layout.place_of(&path) {
        Some(at) => {
            push_numbers(told, &[at.region, at.offset])?;
            told.push_str(", ")?;
            push_beginning(alloc, told, layout, at)
        }
        None => told.push_str("none"),
    }
}

/// Adds how many bytes a region has, how many its type takes, and what that is aligned to.
fn tell_size(
    told: &mut Text,
    layout: &Layout,
    program: &Program,
    region: u32,
) -> Result<(), NoMemory> {
    match program.regions.get(region as usize) {
        Some(decl) => {
            let type_size = layout.size_of(&decl.kind);
            let alignment = layout.alignment_of(&decl.kind);
            push_numbers(told, &[layout.bytes_of(region), type_size, alignment])
        }
        None => told.push_str("none"),
    }
}

/// Adds the bytes with which a region begins.
fn tell_image(told: &mut Text, images: &Regions, region: u32) -> Result<(), NoMemory> {
    if region >= images.len() {
        return told.push_str("none");
    }
    match images.at(region) {
        Some(image) => told.push_hex(image.part(0, image.len())),
        None => told.push_str("none"),
    }
}

/// Adds the bytes with which a region of a program begins.
fn tell_beginning(
    alloc: Global,
    told: &mut Text,
    layout: &Layout,
    program: &Program,
    region: u32,
) -> Result<(), NoMemory>
    requires { layout.now ≡ program.now }
{
    let images = initial_images(alloc, layout, program)?;
    tell_image(told, &images, region)
}

fn tell_of(
    alloc: Global,
    told: &mut Text,
    program: &Program,
    question: &str,
    words: &str,
) -> Result<(), NoMemory> {
    let (first, second) = split_field(words);
    let region = small(first);
    let offset = small(second);
    let layout = Layout::build(alloc, program)?;
    match question {
        "place" => tell_place(alloc, told, &layout, words),
        "at" => push_beginning(alloc, told, &layout, At { region, offset }),
        "size" => tell_size(told, &layout, program, region),
        _ => tell_beginning(alloc, told, &layout, program, region),
    }
}

/// Adds the answer to a question on a program.
fn tell_program(
    alloc: Global,
    told: &mut Text,
    program: &Program,
    question: &str,
    words: &str,
) -> Result<(), NoMemory> {
    match question {
        "judge" => told.push_str("accepted"),
        "touches" => {
            let regions = footprint(alloc, program, small(words))?;
            push_numbers(told, regions.as_slice())
        }
        "alters" => {
            let regions = writes(alloc, program, small(words))?;
            push_numbers(told, regions.as_slice())
        }
        _ => tell_of(alloc, told, program, question, words),
    }
}

/// Adds the answer to a question on a program.
pub fn tell<J: Checker>(
    alloc: Global,
    told: &mut Text,
    text: &str,
    question: &str,
    words: &str,
) -> Result<(), NoMemory> {
    let source = Text::copy(alloc, text)?;
    match J::check(alloc, &source) {
        Ok(program) => {
            let answer = tell_program(alloc, told, &program, question, words);
            give_back(program);
            answer
        }
        Err(_) => told.push_str("refused"),
    }
}
