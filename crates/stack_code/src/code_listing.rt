//! The listing of valid code.

mod writing;

pub use writing::listing;
