//! The program instances of a unit: the rules of their regions, and these regions in the checked program (IEC 61131-3:2013, 6.8).

mod index;
mod instances;
mod programs;

pub use instances::{CheckedInstance, check_instance};
pub use programs::UnitPrograms;
