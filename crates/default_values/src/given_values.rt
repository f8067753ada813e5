//! What is given by an initial value: how often each part of a list for an array counts, and the values for the names of a structure
//! (IEC 61131-3:2013, 6.4.4 and 6.5.1.4).

mod given;
mod laws;

pub use given::{count, fields_given, given_for, parts_given, rooms, used, value_of};
pub use laws::element_laws;
