//! What the code before the body of a routine does: its locals begin, and its arguments come from the block.
#![tactic(auto)]

mod laws;

pub use laws::write_laws;
