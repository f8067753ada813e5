// Sources and sinks in memory, which tell their bytes and fail at the calls that they are told to.
ghost use Rattle.std.specs.Prelude.{◌≡◌, ◌↔◌, ℕ, ◌-◌, ◌≤◌, ◌<◌, min, max, [], length, Some, IfOk};
ghost use Rattle.std.specs.Io.KnownBytes.{Keeps};
ghost use Rattle.plc_io.specs.Faults.{Rose};
ghost use Rattle.plc_io.specs.Memory.{FailsNextRead, FailsNextWrite, CountsRead, CountsWrite};
ghost use Rattle.plc_io.specs.Sink.{WriteTakes, CountsFailedWrite};
ghost use Rattle.plc_io.specs.Source.{ReadGives, CountsFailedRead};

use crate::calls::Calls;
use crate::reading::zeros;
use crate::sink::{Sink, Took};
use crate::source::{Got, Source};
use std::alloc::{AllocError, Global};
use std::marker::Model;

/// A source that holds its bytes.
#[derive(Drop)]
pub struct MemSource {
    bytes: Vec<u8>,
    position: usize,
    largest_piece: usize,
    calls: Calls,
}

impl Model for MemSource {
    ghost use Rattle.std.specs.Prelude.{◌≤◌, length, drop};
    ghost use Rattle.plc_io.specs.Memory.{SourceMemory};

    ghost Value = { SourceMemory };

    ghost view = { λ source. record {
      left = drop source.position source.bytes.items;
      piece = source.largest_piece;
      failing = source.calls.failing.items;
      made = source.calls.made;
      faults = source.calls.faults;
    } };

    ghost invariant = { λ source. source.position ≤ length source.bytes.items };
}

impl MemSource {
    /// A source of these bytes. A read gives `largest_piece` of them at most (1 where that is 0), and
    /// fails where its number, counted from 1, is among `failing`.
    pub fn new(bytes: Vec<u8>, largest_piece: usize, failing: Vec<u64>) -> Self
        ensures left { ⟦<MemSource as Source>⟧.left result ≡ Some bytes.items }
        ensures faults { ⟦<MemSource as Source>⟧.faults result ≡ 0 }
        ensures set { result ≡ record {
          left = bytes.items;
          piece = largest_piece;
          failing = failing.items;
          made = 0;
          faults = 0;
        } }
    {
        MemSource {
            bytes,
            position: 0,
            largest_piece,
            calls: Calls::new(failing),
        }
    }

    /// How often a read has failed, up to `u64::MAX`.
    pub fn faults(&self) -> u64
        ensures { result ≡ ⟦<MemSource as Source>⟧.faults self.now }
    {
        self.calls.faults()
    }
}

impl Source for MemSource {
    ghost left = { λ source. Some source.left };

    ghost faults = { λ source. source.faults };

    fn read(&mut self, buf: &mut [u8]) -> Got
        ensures bytes { 0 < length buf.old → ReadGives (Some self.old.left) (Some self.new.left) buf.new result }
        ensures no_room { length buf.old ≡ 0 → Keeps (Some self.old.left) (Some self.new.left) }
        ensures cause { result ≡ Got.Failed → Rose self.old.faults self.new.faults }
        ensures later { self.old.faults ≤ self.new.faults }

        // It fails where it is told to, and otherwise gives all that there is, up to its largest piece.
        ensures fails { (result ≡ Got.Failed) ↔ FailsNextRead self.old }
        ensures counted { CountsFailedRead result self.old.faults self.new.faults }
        ensures amount { (n : ℕ) → result ≡ Got.Bytes n
            → n ≡ min (min (length self.old.left) (length buf.old)) (max self.old.piece 1) }
        ensures call { CountsRead self.old self.new }
    {
        if self.calls.next_fails() {
            return Got::Failed;
        }
        let rest = &self.bytes[self.position..];
        if rest.is_empty() {
            return Got::End;
        }
        let count = rest.len().min(buf.len()).min(self.largest_piece.max(1));
        buf[..count].copy_from_slice(&rest[..count]);
        self.position += count;
        Got::Bytes(count)
    }
}

/// A sink that holds the bytes it took. All the room for them is taken when it is made, so no write takes memory.
#[derive(Drop)]
pub struct MemSink {
    room: Vec<u8>,
    len: usize,
    largest_piece: usize,
    calls: Calls,
}

impl Model for MemSink {
    ghost use Rattle.std.specs.Prelude.{◌≤◌, length, take};
    ghost use Rattle.plc_io.specs.Memory.{SinkMemory};

    ghost Value = { SinkMemory };

    ghost view = { λ sink. record {
      taken = take sink.len sink.room.items;
      room = length sink.room.items;
      piece = sink.largest_piece;
      failing = sink.calls.failing.items;
      made = sink.calls.made;
      faults = sink.calls.faults;
    } };

    ghost invariant = { λ sink. sink.len ≤ length sink.room.items };
}

impl MemSink {
    /// A sink that has taken nothing, with room for `room` bytes. A write takes `largest_piece` of them at most (1 where
    /// that is 0). It fails where its number, counted from 1, is among `failing`, or where no room is left.
    pub fn new(
        alloc: Global,
        room: usize,
        largest_piece: usize,
        failing: Vec<u64>,
    ) -> Result<Self, AllocError>
        ensures taken { IfOk result (λ sink. ⟦<MemSink as Sink>⟧.taken sink ≡ Some []) }
        ensures faults { IfOk result (λ sink. ⟦<MemSink as Sink>⟧.faults sink ≡ 0) }
        ensures set { IfOk result (λ sink. sink ≡ record {
          taken = [];
          room = room;
          piece = largest_piece;
          failing = failing.items;
          made = 0;
          faults = 0;
        }) }
    {
        let room = zeros(alloc, room)?;
        Ok(MemSink {
            room,
            len: 0,
            largest_piece,
            calls: Calls::new(failing),
        })
    }

    /// The bytes taken so far.
    pub fn bytes(&self) -> &[u8]
        ensures { ⟦<MemSink as Sink>⟧.taken self.now ≡ Some result.now }
    {
        &self.room[..self.len]
    }

    /// How often a write has failed, up to `u64::MAX`.
    pub fn faults(&self) -> u64
        ensures { result ≡ ⟦<MemSink as Sink>⟧.faults self.now }
    {
        self.calls.faults()
    }
}

impl Sink for MemSink {
    ghost taken = { λ sink. Some sink.taken };

    ghost faults = { λ sink. sink.faults };

    fn write(&mut self, bytes: &[u8]) -> Took
        ensures bytes { 0 < length bytes.now → WriteTakes (Some self.old.taken) (Some self.new.taken) bytes.now result }
        ensures nothing { length bytes.now ≡ 0 → Keeps (Some self.old.taken) (Some self.new.taken) }
        ensures cause { result ≡ Took.Failed → Rose self.old.faults self.new.faults }
        ensures later { self.old.faults ≤ self.new.faults }

        // It fails where it is told to and where it is full, and otherwise takes all that there is room for, up to its
        // largest piece.
        ensures fails { (result ≡ Took.Failed) ↔ FailsNextWrite self.old }
        ensures counted { CountsFailedWrite result self.old.faults self.new.faults }
        ensures amount { (n : ℕ) → result ≡ Took.Bytes n
            → n ≡ min (min (length bytes.now) (self.old.room - length self.old.taken)) (max self.old.piece 1) }
        ensures call { CountsWrite self.old self.new }
    {
        if self.calls.next_fails() {
            return Took::Failed;
        }
        let left = self.room.len() - self.len;
        if left == 0 {
            self.calls.add_fault();
            return Took::Failed;
        }
        let count = bytes.len().min(left).min(self.largest_piece.max(1));
        self.room[self.len..self.len + count].copy_from_slice(&bytes[..count]);
        self.len += count;
        Took::Bytes(count)
    }
}
