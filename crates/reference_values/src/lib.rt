//! What expressions, places and calls of a checked program do, straight from the typed tree. How a routine is entered is left open.
#![tactic(auto)]

mod leaves;
mod steps;
mod values;
mod walk;

pub use walk::Walk;
