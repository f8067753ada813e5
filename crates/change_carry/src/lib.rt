//! What the values of a program that replaces another one get from the values of that one.
#![tactic(auto)]

mod carry;
mod numbers;
mod parts;
mod references;
mod store;

pub use carry::stays;
pub use parts::{class_names, field_places, structure_names};
pub use store::{carry_store, is_carried, region_before};
