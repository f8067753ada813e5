//! Bits of output and memory addresses that are taken (IEC 61131-3:2013, 6.5.5).

mod span;
mod table;
mod taken;

pub use taken::TakenBits;
