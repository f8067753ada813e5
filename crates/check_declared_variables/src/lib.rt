//! Which rules written types, variables and entries of TYPE break, and their typed trees.
#![tactic(auto)]

pub mod entry_rules;
pub mod type_rules;
pub mod variable_rules;

pub use entry_rules::{CheckedEntry, check_entry};
pub use type_rules::{CheckedType, check_type};
pub use variable_rules::{
    CheckedGiven, CheckedItem, CheckedResult, CheckedSection, CheckedSections, check_given,
    check_item, check_result, check_section, check_sections, copied_names,
};
