//! What constants of an accepted program come to: numbers of their types, in every scope; and what is given as an initial value has the shape of its type.
#![tactic(auto)]

mod laws;

pub use laws::constant_laws;
