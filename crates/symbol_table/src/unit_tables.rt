//! The tables by which the texts of a unit are checked, built once, and the scopes of these texts (IEC 61131-3:2013, 6.5 to 6.8).

mod classes;
mod tables;

pub use classes::list_classes;
pub use tables::UnitTables;
