//! The variables that the declarations of a checked program give to instances and structures, and the numbers with which a
//! region begins.

mod given;
mod members;
mod region_numbers;
mod variables;

pub use given::{elements_given, fields_given, given_for, number_given};
pub use members::{Members, members_of};
pub use region_numbers::initial;
pub use variables::{
    Variable, class_variables, instance_variables, kind_of, push_items, push_own, structure_fields,
};
