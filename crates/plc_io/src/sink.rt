// What bytes are written to.
ghost use Rattle.std.specs.Prelude.{◌≡◌, ◌<◌, ◌≤◌, List, ℕ, Option, length};
ghost use Rattle.std.specs.Io.KnownBytes.{Keeps};
ghost use Rattle.plc_io.specs.Faults.{Rose};
ghost use Rattle.plc_io.specs.Sink.{WriteTakes};

/// What a write came to.
#[derive(Clone, Copy, Debug, PartialEq, Eq)]
pub enum Took {
    /// So many bytes from the front of the piece were taken.
    Bytes(usize),
    /// The sink failed. It took nothing, and may be written to again.
    Failed,
}

/// What bytes are written to.
pub trait Sink {
    /// The bytes taken so far, where the sink tells them.
    ghost taken: { Self → Option (List ℕ) };

    /// How often the sink has failed. The count never falls.
    ghost faults: { Self → ℕ };

    /// Takes some bytes from the front of a piece, at least one where there are any.
    /// Of an empty piece it takes nothing, and its answer means nothing.
    fn write(&mut self, bytes: &[u8]) -> Took
        ensures bytes { 0 < length bytes.now → WriteTakes (taken self.old) (taken self.new) bytes.now result }
        ensures cause { 0 < length bytes.now → result ≡ Took.Failed → Rose (faults self.old) (faults self.new) }
        ensures nothing { length bytes.now ≡ 0 → Keeps (taken self.old) (taken self.new) }
        ensures later { faults self.old ≤ faults self.new };
}
