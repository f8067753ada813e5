//! The law that emitted code is valid.
#![tactic(auto)]

mod laws;

pub use laws::valid_emitted_laws;
