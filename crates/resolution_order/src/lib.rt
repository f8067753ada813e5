//! In which order types and constants can be told, and why any order will do.
#![tactic(auto)]

pub mod telling_groups;
pub mod telling_list;
pub mod told_laws;
pub mod told_places;
