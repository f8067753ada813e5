//! What the statements of a checked program do, straight from the typed tree. How a routine is entered is left open.
#![tactic(auto)]

mod bodies;
mod counting;
mod flow;
mod steps;

pub use bodies::Bodies;
pub use flow::Flow;
