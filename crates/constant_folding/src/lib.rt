//! Constant expressions: what they come to, which parts of them are no constants, and whether all their names are told.
#![tactic(auto)]

pub mod constant_rules;
pub mod constant_values;
pub mod told_expressions;

pub use constant_rules::constant_part_fault;
pub use constant_values::{Outcome, noted_value, value_laws};
pub use told_expressions::names_are_told;
