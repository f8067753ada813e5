//! The plain program: what a cycle of a task of a checked program does, straight from the typed tree over value trees.
#![tactic(auto)]

mod cycles;
mod ended;

pub use cycles::cycle;
pub use ended::Ended;
