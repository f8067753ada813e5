//! All rules of functions and programs, and their typed trees (IEC 61131-3:2013, 6.6.2 and 6.6.6).

mod functions;
mod parts;
mod programs;

pub use functions::{CheckedFunction, check_function};
pub use parts::parts_of;
pub use programs::{CheckedProgram, check_program};
