//! Which code a checked program has: the cells of its expressions, places, statements and routines.
#![tactic(auto)]

mod laws;
mod local;

pub use laws::plan_laws;
pub use local::LocalPlace;
