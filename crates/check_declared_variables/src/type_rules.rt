//! The rules of types as they are written, and their typed trees (IEC 61131-3:2013, 6.4).

mod arrays;
mod bounds;
mod dimensions;
mod elements;
mod types;

pub use types::{CheckedType, check_type};
