//! The locals of routines and programs, with all that can be told of them (IEC 61131-3:2013, 6.5 and 6.6).

mod around;
mod rounds;
mod telling;

pub use around::{Around, Declaring};
pub use rounds::told_locals;
