//! Tables of the classes of a unit: which method a name means, which slot it has, and to what a class conforms
//! (IEC 61131-3:2013, 6.6.5 and 6.6.6).
#![tactic(auto)]

mod absorb;
mod broken;
mod chain;
mod found;
mod graph;
mod laws;
mod maps;
mod settle;
mod store;
mod tables;

pub use laws::slot_laws;
pub use tables::ClassTables;
