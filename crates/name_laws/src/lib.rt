//! What the names of a good unit mean is there in its checked program.
#![tactic(auto)]

mod laws;

pub use laws::name_laws;
