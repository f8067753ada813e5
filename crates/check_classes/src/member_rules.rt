//! All rules of the members of classes and function blocks, and their typed trees (IEC 61131-3:2013, 6.6.5).

mod members;

pub use members::{CheckedMembers, check_members};
