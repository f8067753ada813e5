//! Names and words that are declared twice or stand where they may not, and what stands before a declaration.
#![tactic(auto)]

pub mod declarations_before;
pub mod member_names;
pub mod name_rules;
pub mod name_spaces;
