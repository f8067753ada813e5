//! Limits of what a declaration holds: how deep its types are, how many parameters and methods it has, and how many values its locals
//! have (E16).

mod counts;
mod depths;
mod locals;

pub use counts::{methods_fault, parameters_fault};
pub use depths::{Within, class_too_deep, structure_too_deep, too_deep};
pub use locals::{add_body_values, locals_fault, too_many_locals};
