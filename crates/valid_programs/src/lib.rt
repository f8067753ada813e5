//! The law that the code of a program is valid.
#![tactic(auto)]

mod laws;

pub use laws::valid_program_laws;
