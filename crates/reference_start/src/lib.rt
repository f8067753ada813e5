//! The plain program: the first load of a checked program, its initial values and the hooks of its instances.
#![tactic(auto)]

mod hooks;
mod instances;
mod started;

pub use hooks::Stopped;
pub use started::{Started, start};
