//! What the program of tests asks of texts: commands over bytes in memory, journals, and where the values of a program lie.
#![tactic(auto)]

mod journals;
mod layout;
mod questions;
mod streams;

pub use questions::tell;
