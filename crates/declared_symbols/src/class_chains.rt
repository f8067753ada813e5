//! The chains of the classes of a unit, in cells that they share (IEC 61131-3:2013, 6.6.5).

mod cells;
mod chain;
mod chains;

pub use cells::Cell;
pub use chains::ClassChains;
