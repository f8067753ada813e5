//! What a checked program calls, in tables: classes by name, the routine that a name means in a class, to what a class conforms.
#![tactic(auto)]

mod bases;
mod chain;
mod climb;
mod graph;
mod parts;
mod places;
mod routine;
pub mod st_initial;
mod tables;

pub use routine::{RoutineId, line, method_at, name, statements};
pub use st_initial::{
    Members, Variable, class_variables, elements_given, fields_given, given_for, initial,
    instance_variables, kind_of, members_of, number_given, push_items, push_own, structure_fields,
};
pub use tables::ProgramTables;
