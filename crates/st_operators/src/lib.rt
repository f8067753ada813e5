//! Operators, literals and implicit conversion: which types they take and give, and which rules they break (IEC 61131-3:2013, 6.3.2,
//! 6.6.1.7 and table 71). Each function is one of the definitions of `st_rules`.
#![tactic(auto)]

mod kinds;
mod literals;
mod operators;
mod types;

pub use kinds::{
    common_kind, gives_bool, is_arithmetic, is_bool, is_number, is_time, takes, takes_minus,
    takes_not,
};
pub use literals::{
    asked_of, duration_fault, int_fault, int_type, literal_fault, literal_type, negative_fault,
    negative_type, null_type, number_asked,
};
pub use operators::{
    index_fault, negated_fault, negated_type, noted_fault, noted_type, operands_fault,
    operation_type,
};
pub use types::{element_type, holds_instances, is_number_type, is_reference, suits_operator};
