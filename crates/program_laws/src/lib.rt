//! What holds of every program that is accepted, with no premise left.
#![tactic(auto)]

mod laws;

pub use laws::{accepted_cycles, accepted_layouts, accepted_paths, accepted_stores};
