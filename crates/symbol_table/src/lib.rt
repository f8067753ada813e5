//! All that a unit says of its names, as one value and in tables, and the scopes of its texts.
#![tactic(auto)]

pub mod unit_names;
pub mod unit_tables;
