//! What a unit says of its names, with all types, values and numbers (IEC 61131-3:2013, 6.4 to 6.8).

mod classes;
mod globals;
mod known;
mod names;
mod parts;
mod routines;
mod types;

pub use names::unit_names;
