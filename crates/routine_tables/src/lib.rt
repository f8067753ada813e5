//! The parameters and locals of the routines of a checked program.
#![tactic(auto)]

mod declared;
mod entry;
mod locals;
mod parameters;
pub mod signature_tables;
mod tables;

pub use declared::push_sections;
pub use entry::Entry;
pub use parameters::{Parameter, Recipient, local_parameters};
pub use tables::{RoutineTables, routine_tables};
