//! Which regions of a program hold instances of which classes.
#![tactic(auto)]

mod graph;
mod held;
mod instances;

pub use instances::RegionInstances;
