//! What the program of tests asks of the machine: code that is written as text is judged, listed and run.
#![tactic(auto)]

mod code;
mod runs;

pub use code::{elem, machine_code, numbers, small};
pub use runs::tell;
