//! All rules of classes and function blocks, and their typed trees (IEC 61131-3:2013, 6.6.3 to 6.6.6).

mod classes;
mod parts;

pub use classes::{ClassSide, check_class};
pub use parts::CheckedClass;
