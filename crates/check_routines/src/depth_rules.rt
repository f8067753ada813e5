//! Depth of the types that are written in variables and results (E16).

mod depths;
mod variables;

pub use depths::{items_depth_fault, result_depth_fault, type_depth_fault};
pub use variables::{body_depth_fault, kept_depth_fault};
