//! The small steps of a run: numbers and operators, names and references, arguments and labels.
#![tactic(auto)]

mod labels;
mod operations;
mod places;
mod values;

pub use labels::{constant, end_value, hold};
pub use operations::{complemented, is_decided, literal_value, negated, operate};
pub use places::{
    element_kind, followed, held_spot, index_in, instance_of, named_spot, part_named, place_value,
    root_spot,
};
pub use values::{elem_of, is_true, number_in, path_in, same_value, truth};
