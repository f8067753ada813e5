//! Types and constants of a unit and of its routines, told one by one.
#![tactic(auto)]

pub mod declared_variables;
pub mod told_locals;
pub mod told_names;
pub mod written_types;
