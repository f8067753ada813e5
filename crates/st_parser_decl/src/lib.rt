//! Parses program texts as a whole (IEC 61131-3:2013, 6.4 to 6.8).
#![tactic(auto)]

mod class;
mod configuration;
mod law;
mod leaf;
mod place;
mod reading;
mod routine;
mod section;
mod type_decl;
mod types;
mod unit;

pub use law::{one_answer, one_unit};
pub use reading::{Cause, parse, unit_of};
