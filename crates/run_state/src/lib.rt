//! The state of a run over value trees: regions, open calls, ticks, and what takes a cycle's writes back.
#![tactic(auto)]

mod copies;
mod frames;
mod log;
mod places;
mod state;
mod writes;

pub use copies::copy_store;
pub use frames::{local_spot, own_path, pop, push};
pub use places::{copy_spot, into_part, load, path_of, value_of_spot};
pub use state::{Frame, Log, RunState, Slot, Spot, Stop, Undo, fault, spend};
pub use writes::{put, roll_back};
