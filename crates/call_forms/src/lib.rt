//! The tables of compiled code, and what a call of a routine in it owes.
#![tactic(auto)]

mod laws;

pub use laws::longer_laws;
