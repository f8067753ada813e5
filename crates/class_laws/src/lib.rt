//! What is promised of the classes of a checked program: chains, conformity, parameters, methods that override.
#![tactic(auto)]

mod laws;

pub use laws::class_laws;
