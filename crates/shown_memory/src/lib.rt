//! When the memory of the machine shows a state of the meaning, and where what is shown lies.
#![tactic(auto)]

mod laws;

pub use laws::size_laws;
