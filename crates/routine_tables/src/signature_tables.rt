//! What methods of interfaces may be given, by the name that a call uses.

mod declarers;
mod tables;

pub use tables::{SignatureTables, signature_tables};
