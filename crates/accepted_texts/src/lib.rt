//! As definitions and laws: which sources are accepted, and what holds of each that is.
#![tactic(auto)]

pub mod formed_texts;
pub mod formed_units;
pub mod sized_units;
pub mod st_accepted;
pub mod told_units;
pub mod unfolding_laws;
