//! What is declared for structures.

use st_tree::FieldGroup;
use st_types::StType;

/// The fields of a group of a structure.
#[derive(Drop)]
pub struct Group<'a> {
    pub declared: &'a FieldGroup<u32>,
    /// None where the type cannot be told.
    pub kind: Option<StType>,
    /// What a field is worth that is not given; None where it cannot be told.
    pub worth: Option<u32>,
}

/// The fields of a structure, with the least number of steps in which it has a worth.
#[derive(Drop)]
pub struct Structure<'a> {
    pub steps: u32,
    pub groups: Vec<Group<'a>>,
}
