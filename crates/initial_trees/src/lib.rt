//! The values with which the variables and regions of a checked program begin, as trees.
#![tactic(auto)]

mod given;
mod kinds;
mod store;
mod trees;

pub use store::initial_store;
pub use trees::{initial_value, value_of_region};
