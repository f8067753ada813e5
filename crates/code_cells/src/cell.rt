//! Cells of code: instructions of which jumps say how far they go, so that code has no place of its own.

use stack_code::Op;

/// An instruction, with the line of its statement (the last number of each).
#[derive(Clone, Copy)]
pub enum Cell {
    /// An instruction that is no jump.
    Does(Op, u32),
    /// A jump past so many cells.
    Skips(u32, u32),
    /// A jump past so many cells, where the number on top is 0.
    SkipsAt0(u32, u32),
    /// A jump to the cell so many before this one.
    Returns(u32, u32),
    /// A jump to the cell so many before this one, where the number on top is 0.
    ReturnsAt0(u32, u32),
}
