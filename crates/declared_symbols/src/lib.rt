//! The names that a unit declares, with nothing told of them, and the chains of its classes.
#![tactic(auto)]

pub mod class_chains;
pub mod unit_untold;
pub mod untold_names;
