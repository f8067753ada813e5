//! Which rules classes, function blocks and interfaces break.
#![tactic(auto)]

pub mod base_rules;
pub mod class_limit_rules;
pub mod class_rules;
pub mod interface_rules;
pub mod member_rules;

pub use base_rules::{CheckedBase, CheckedInterfaces, check_base, check_interfaces};
pub use class_limit_rules::class_limit_fault;
pub use class_rules::{CheckedClass, ClassSide, check_class};
pub use interface_rules::{CheckedInterface, check_interface};
pub use member_rules::{CheckedMembers, check_members};
