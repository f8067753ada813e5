//! What initial values are worth, by numbers that equal values share.
#![tactic(auto)]

pub mod given_values;
pub mod initial_worths;
pub mod numbered_signatures;
pub mod structure_worths;
pub mod worth_numbers;
pub mod worth_steps;
