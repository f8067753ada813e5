//! The small steps of a call: what is called and on which instance, what its arguments are for, and what it leaves.
#![tactic(auto)]

mod callee;
mod found;
mod given;
mod left;

pub use callee::{Callee, Search, callee_of, class_of_kind};
pub use found::{Found, base_body, body_on, function_of, instance_class, method_on};
pub use given::{
    behind_next, given_place, given_value, is_in_out, is_output, next_parameter, number_to,
    parameter_named, parameter_number, same_in_outs,
};
pub use left::{converted_value, output_left};
