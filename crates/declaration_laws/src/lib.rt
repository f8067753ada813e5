//! What is promised of the declarations of an accepted program: regions, the locals and parameters of routines, constants, and classes.
#![tactic(auto)]

mod laws;

pub use laws::declaration_laws;
