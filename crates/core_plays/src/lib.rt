//! The plays of a scenario, one after the other, by one caller of a core.
#![tactic(auto)]

mod plays;

pub use plays::play_in_order;
