//! What is promised of places and of parameters, where the rules and the meaning agree on what names are.
#![tactic(auto)]

mod laws;

pub use laws::argument_laws;
