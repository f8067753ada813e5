//! The signatures of all methods of a unit, with what constants come to in their scopes.
#![tactic(auto)]

pub mod scope_values;
pub mod unit_signatures;
