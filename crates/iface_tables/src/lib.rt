//! Tables of the interfaces of a unit: which method a class runs for a method of an interface, what an interface extends and which method a
//! name means in it, and the rules of interfaces (IEC 61131-3:2013, 6.6.6).
#![tactic(auto)]

mod broken;
mod declarers;
mod prototypes;
mod tables;
mod targets;

pub use class_tables::ClassTables;
pub use tables::IfaceTables;
