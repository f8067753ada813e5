//! The declarations of a unit, passed one after the other: laws of what stands before each, of what is bad first, and of what there is of each
//! sort in the end.

mod passing;

pub use passing::passing_laws;
