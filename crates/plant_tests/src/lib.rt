//! What the program of tests asks of the core of a plant: calls on a core of three counters.
#![tactic(auto)]

mod calls;
pub mod plant_counters;

pub use calls::tell;
pub use plant_counters::{Counters, Draft};
