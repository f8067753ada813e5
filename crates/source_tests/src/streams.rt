//! The commands, and reading and writing by themselves, over bytes in memory. `check READS FAILING WRITES FAILING`, and the same of `play`,
//! ask what the command says to the text: so many bytes go at once, and the call of the number behind them fails, none where it is 0. `copy
//! LIMIT ROOM READS FAILING WRITES FAILING` reads the text up to the limit and writes it into so much room.

use console::{check, play};
use console_command::Checker;
use plc_io::{MemSink, MemSource, ReadError, WriteFault, read_all, write_all};
use plc_text::{NoMemory, Text, number, split_field};
use std::alloc::Global;

/// Room for the longest report.
const ROOM: usize = 65_536;

/// A source of the text, and the words behind those that tell how its bytes go.
fn source<'a>(alloc: Global, text: &str, words: &'a str) -> Result<(MemSource, &'a str), NoMemory> {
    let (piece, rest) = split_field(words);
    let (call, behind) = split_field(rest);
    let failing = failing(alloc, call)?;
    let bytes = Vec::from_slice(alloc, text.as_bytes())?;
    let piece = number(piece).unwrap_or(0) as usize;
    Ok((MemSource::new(bytes, piece, failing), behind))
}

/// A sink with so much room.
fn sink(alloc: Global, room: usize, words: &str) -> Result<MemSink, NoMemory> {
    let (piece, call) = split_field(words);
    let failing = failing(alloc, call)?;
    let piece = number(piece).unwrap_or(0) as usize;
    let sink = MemSink::new(alloc, room, piece, failing)?;
    Ok(sink)
}

/// The call that fails.
fn failing(alloc: Global, call: &str) -> Result<Vec<u64>, NoMemory> {
    let mut failing = Vec::new(alloc);
    failing.push(u64::from(number(call).unwrap_or(0)))?;
    Ok(failing)
}

/// Adds how often reads and writes failed, and the bytes that were taken.
fn push_taken(
    alloc: Global,
    told: &mut Text,
    source: &MemSource,
    sink: &MemSink,
) -> Result<(), NoMemory> {
    let taken = String::from_utf8_lossy(alloc, sink.bytes())?;
    told.push_str(", failed ")?;
    told.push_decimal(source.faults())?;
    told.push_str(" and ")?;
    told.push_decimal(sink.faults())?;
    told.push_str("\n")?;
    told.push_str(&taken)
}

/// Adds the status that a command ends with, and what it writes.
fn push_command<J: Checker>(
    alloc: Global,
    told: &mut Text,
    source: &mut MemSource,
    sink: &mut MemSink,
    command: &str,
) -> Result<(), NoMemory> {
    let outcome = if command == "check" {
        check::<J, MemSource, MemSink>(alloc, source, sink)
    } else {
        play::<J, MemSource, MemSink>(alloc, source, sink)
    };
    told.push_str(outcome.status().name())?;
    push_taken(alloc, told, source, sink)
}

/// Adds what a command comes to that reads a source and writes to a sink of these words.
fn command_from<J: Checker>(
    alloc: Global,
    told: &mut Text,
    source: &mut MemSource,
    command: &str,
    words: &str,
) -> Result<(), NoMemory> {
    let mut sink = sink(alloc, ROOM, words)?;
    push_command::<J>(alloc, told, source, &mut sink, command)
}

/// Adds the status that a command ends with on a text, and what it writes.
pub fn tell<J: Checker>(
    alloc: Global,
    told: &mut Text,
    text: &str,
    command: &str,
    words: &str,
) -> Result<(), NoMemory> {
    let (mut source, behind) = source(alloc, text, words)?;
    command_from::<J>(alloc, told, &mut source, command, behind)
}

/// Adds what a copy comes to: how many bytes were sent where a write failed, or are left where a read failed.
fn push_copy(
    alloc: Global,
    told: &mut Text,
    source: &mut MemSource,
    sink: &mut MemSink,
    limit: u32,
) -> Result<(), NoMemory> {
    let (ending, number) = match read_all(alloc, source, limit) {
        Ok(bytes) => match write_all(sink, &bytes) {
            Ok(()) => ("all ", bytes.len()),
            Err(WriteFault { sent }) => ("cut behind ", sent),
        },
        Err(ReadError::TooLong) => ("more than ", limit as usize),
        Err(_) => match read_all(alloc, source, u32::MAX) {
            Ok(left) => ("none, left ", left.len()),
            Err(_) => ("no memory ", 0),
        },
    };
    told.push_str(ending)?;
    told.push_decimal(number as u64)
}

/// Adds what a copy from a source comes to, into a sink of these words, and the bytes that were taken.
fn copy_from(
    alloc: Global,
    told: &mut Text,
    source: &mut MemSource,
    limit: u32,
    room: u32,
    words: &str,
) -> Result<(), NoMemory> {
    let mut sink = sink(alloc, room as usize, words)?;
    push_copy(alloc, told, source, &mut sink, limit)?;
    push_taken(alloc, told, source, &sink)
}

/// Adds what a copy comes to, and the bytes that were taken.
pub fn tell_copy(alloc: Global, told: &mut Text, text: &str, words: &str) -> Result<(), NoMemory> {
    let (limit, rest) = split_field(words);
    let (room, streams) = split_field(rest);
    let limit = number(limit).unwrap_or(0);
    let room = number(room).unwrap_or(0);
    let (mut source, behind) = source(alloc, text, streams)?;
    copy_from(alloc, told, &mut source, limit, room, behind)
}
