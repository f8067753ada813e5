//! What is promised of statements, where the rules and the meaning agree on what names are.
#![tactic(auto)]

mod laws;

pub use laws::body_laws;
