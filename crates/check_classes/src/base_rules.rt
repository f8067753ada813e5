//! The base class and the interfaces that a declaration names: whether they are found, and their typed trees (IEC 61131-3:2013, 6.6.5 and 6.6.6).

mod used;

pub use used::{CheckedBase, CheckedInterfaces, check_base, check_interfaces};
