//! The signatures of all methods of a unit, with numbers for what initial values are worth (IEC 61131-3:2013, 6.6.5.4).

mod classes;
mod interfaces;
mod parameters;
mod routines;
mod signatures;
mod structures;
mod weighed;

pub use signatures::unit_signatures;
