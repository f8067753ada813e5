//! What is in scope where a text stands, and what names and places mean there (IEC 61131-3:2013, 6.5.2.2, 6.6.5 and 6.6.6).
#![tactic(auto)]

mod bases;
mod chain;
mod climb;
mod enumerators;
mod places;
mod routines;
mod scope;
mod tables;
mod telling;
mod unit_tables;

pub use places::Places;
pub use scope::{Meant, Qualifier, Scope, local_places};
pub use tables::NameTables;
pub use telling::tell_local;
