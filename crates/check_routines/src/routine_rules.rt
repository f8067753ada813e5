//! All rules of a routine but those of its name: its sections, its result, its limits and its body (IEC 61131-3:2013, 6.6).

mod bodies;
mod limits;
mod parts;
mod routines;
mod variables;

pub use bodies::{FoundBody, body_found};
pub use parts::UnitParts;
pub use routines::{CheckedRoutine, check_routine};
pub use variables::{CheckedVariables, check_variables};
