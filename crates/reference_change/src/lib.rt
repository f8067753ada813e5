//! The plain program: the change of a running program to another one.
#![tactic(auto)]

mod changed;
mod hooks;
mod phases;
mod turn;

pub use changed::{Changed, change};
