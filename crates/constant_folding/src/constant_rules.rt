//! The rules of expressions where a constant is wanted (IEC 61131-3:2013, 6.5.1.4).

mod parts;
mod places;

pub use parts::constant_part_fault;
