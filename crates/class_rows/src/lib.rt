//! What the rules of classes ask of the declarations of a unit, with names as numbers.
#![tactic(auto)]

mod faults;
mod index;
mod rows;
mod unit_names;

pub use faults::{base_fault, is_bad_method};
pub use index::{first_place, number_of};
pub use rows::{ClassRow, InterfaceRow, MethodRow, UnitRows, unit_rows};
pub use unit_names::{UnitNames, names_of_unit};
