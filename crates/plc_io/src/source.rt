// What bytes are read from.
ghost use Rattle.std.specs.Prelude.{◌≡◌, ◌<◌, ◌≤◌, List, ℕ, Option, length};
ghost use Rattle.std.specs.Io.KnownBytes.{Keeps};
ghost use Rattle.plc_io.specs.Faults.{Rose};
ghost use Rattle.plc_io.specs.Source.{ReadGives};

/// What a read came to.
#[derive(Clone, Copy, Debug, PartialEq, Eq)]
pub enum Got {
    /// So many bytes stand at the front of the buffer.
    Bytes(usize),
    /// Nothing is left.
    End,
    /// The source failed. Nothing was taken from it, and it may be read again.
    Failed,
}

/// What bytes are read from.
pub trait Source {
    /// The bytes still to come, where the source tells them.
    ghost left: { Self → Option (List ℕ) };

    /// How often the source has failed. The count never falls.
    ghost faults: { Self → ℕ };

    /// Reads some of the bytes still to come into the front of the buffer, at least one where any are left.
    /// With no room it takes nothing, and its answer means nothing.
    fn read(&mut self, buf: &mut [u8]) -> Got
        ensures bytes { 0 < length buf.old → ReadGives (left self.old) (left self.new) buf.new result }
        ensures cause { 0 < length buf.old → result ≡ Got.Failed → Rose (faults self.old) (faults self.new) }
        ensures no_room { length buf.old ≡ 0 → Keeps (left self.old) (left self.new) }
        ensures later { faults self.old ≤ faults self.new };
}
