//! Calls: what is called, its parameters, how arguments are matched with them, and which rules they break (IEC 61131-3:2013, 6.6.1.4,
//! 6.6.2.2 and 6.6.5.5). Each function is one of the definitions of `st_rules`.
#![tactic(auto)]

mod callee;
mod conversions;
mod faults;
mod heads;
mod matching;
mod names;
mod parameters;

pub use callee::{Callee, called_root_fault, callee_at, is_on_super};
pub use conversions::{binding_fault, is_assignable, is_bindable, output_fault, value_fault};
pub use faults::{call_type, callee_fault, result_fault};
pub use heads::{Head, heads_of};
pub use matching::{Matched, matches};
pub use parameters::{block_parameters, callee_parameters, operand_of, routine_parameters};
