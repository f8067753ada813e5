//! Cells of code: instructions with relative jumps, the operand kinds that each finds, and the routine that they become.
#![tactic(auto)]

mod cell;
mod kinds;
mod laws;
mod settling;
mod whole;

pub use cell::Cell;
pub use laws::routine_laws;
pub use whole::{Emitted, emit_whole};
