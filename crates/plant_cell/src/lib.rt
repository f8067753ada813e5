//! A plant: one core that threads share, a turn that one of them has at a time, and one history.
#![tactic(auto)]

mod cycles;
mod pass;
mod plant;
mod rule;
mod split;

pub use cycles::Tried;
pub use pass::{Pass, PassOver, SplitError, Turn};
pub use plant::{Plant, PlantOver};
