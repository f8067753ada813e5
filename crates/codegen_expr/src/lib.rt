//! The code of expressions, places and calls.
#![tactic(auto)]

mod quiet;
mod walk;

pub use quiet::{source, way_is_quiet};
pub use walk::{emit_called, emit_operand, emit_place, emit_value};
