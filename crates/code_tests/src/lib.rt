//! What the program of tests asks of compiled code: the code of one routine of a source, by tables that are written as text.
#![tactic(auto)]

mod emitted;
mod tables;

pub use emitted::tell;
