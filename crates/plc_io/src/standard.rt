// Std's readers and writers as sources and sinks.
ghost use Rattle.std.specs.Prelude.{◌≡◌, ◌<◌, ◌≤◌, ℕ, None, length};
ghost use Rattle.plc_io.specs.Faults.{Rose};
ghost use Rattle.plc_io.specs.Sink.{WriteTakes, CountsFailedWrite};
ghost use Rattle.plc_io.specs.Source.{ReadGives, CountsFailedRead};

use crate::sink::{Sink, Took};
use crate::source::{Got, Source};
use std::io::{Read, Write};

/// A reader of std as a source. It tells no bytes, and counts each error of the reader, up to `u64::MAX`.
#[derive(Drop)]
pub struct StdSource<R> {
    reader: R,
    faults: u64,
}

impl<R: Read> StdSource<R> {
    /// A source over this reader, with no fault so far.
    pub fn new(reader: R) -> Self
        ensures { ⟦<StdSource<R> as Source>⟧.faults result ≡ 0 }
    {
        StdSource { reader, faults: 0 }
    }

    /// How often the reader has failed.
    pub fn faults(&self) -> u64
        ensures { result ≡ ⟦<StdSource<R> as Source>⟧.faults self.now }
    {
        self.faults
    }
}

impl<R: Read> Source for StdSource<R> {
    ghost left = { λ _. None };

    ghost faults = { λ source. source.faults };

    // It hands on what the reader gives, unchanged, and counts the reader's errors.
    fn read(&mut self, buf: &mut [u8]) -> Got
        ensures bytes { 0 < length buf.old → ReadGives (R.remaining self.old.reader) (R.remaining self.new.reader) buf.new result }
        ensures cause { result ≡ Got.Failed → Rose self.old.faults self.new.faults }
        ensures later { self.old.faults ≤ self.new.faults }
        ensures counted { CountsFailedRead result self.old.faults self.new.faults }
    {
        match self.reader.read(buf) {
            Ok(0) if !buf.is_empty() => Got::End,
            Ok(count) => Got::Bytes(count),
            Err(_) => {
                self.faults = self.faults.saturating_add(1);
                Got::Failed
            }
        }
    }
}

/// A writer of std as a sink. It tells no bytes, and counts each error of the writer, up to `u64::MAX`.
///
/// It writes straight through, as std's `Stdout` and `io::writer` do. Bytes that a buffered writer keeps
/// are that writer's to flush.
#[derive(Drop)]
pub struct StdSink<W> {
    writer: W,
    faults: u64,
}

impl<W: Write> StdSink<W> {
    /// A sink over this writer, with no fault so far.
    pub fn new(writer: W) -> Self
        ensures { ⟦<StdSink<W> as Sink>⟧.faults result ≡ 0 }
    {
        StdSink { writer, faults: 0 }
    }

    /// How often the writer has failed, or taken nothing of a piece.
    pub fn faults(&self) -> u64
        ensures { result ≡ ⟦<StdSink<W> as Sink>⟧.faults self.now }
    {
        self.faults
    }
}

impl<W: Write> Sink for StdSink<W> {
    ghost taken = { λ _. None };

    ghost faults = { λ sink. sink.faults };

    // It hands on what the writer takes, and counts the writer's errors, and each time that it takes nothing of a piece.
    fn write(&mut self, bytes: &[u8]) -> Took
        ensures bytes { 0 < length bytes.now → WriteTakes (W.contents self.old.writer) (W.contents self.new.writer) bytes.now result }
        ensures cause { result ≡ Took.Failed → Rose self.old.faults self.new.faults }
        ensures later { self.old.faults ≤ self.new.faults }
        ensures counted { CountsFailedWrite result self.old.faults self.new.faults }
    {
        match self.writer.write(bytes) {
            Ok(count) if count > 0 || bytes.is_empty() => Took::Bytes(count),
            _ => {
                self.faults = self.faults.saturating_add(1);
                Took::Failed
            }
        }
    }
}
