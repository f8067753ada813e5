//! How a routine of a checked program is entered, and what the programs of a task do, straight from the typed tree.
#![tactic(auto)]

mod entering;
mod loaded;
mod tasks;

pub use entering::enter;
pub use loaded::Loaded;
pub use tasks::run_task;
