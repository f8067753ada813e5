//! How large and how deep types are, and what is more than it may be.
#![tactic(auto)]

pub mod base_limits;
pub mod limit_rules;
pub mod type_sizes;

pub use base_limits::{InterfaceHeights, too_many_bases};
pub use limit_rules::{
    Within, add_body_values, class_too_deep, locals_fault, methods_fault, parameters_fault,
    structure_too_deep, too_deep, too_many_locals,
};
pub use type_sizes::{TypeSizes, has_many_dimensions};
