//! Which regions the cycles of a task touch, and which they write.
#![tactic(auto)]

mod footprints;
mod holders;
mod inputs;
mod marks;
pub mod reached_routines;
mod tables;
mod walk;

pub use footprints::{Footprints, footprint, writes};
