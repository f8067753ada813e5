//! What declarations of an accepted program give: initial values of the types of what they begin, and constants of theirs.
#![tactic(auto)]

mod laws;

pub use laws::initial_laws;
