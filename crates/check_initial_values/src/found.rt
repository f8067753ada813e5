//! What is found out about initial values.

use plc_text::{Code, Items};
use st_tree::{FieldInit, Init, Note, Part};

/// What is found out about an initial value.
#[derive(Drop)]
pub struct CheckedInitial {
    /// The least rule that is broken, with its least line.
    pub least: Option<(Code, u32)>,
    pub tree: Init<Note>,
}

/// A part of a list, checked.
#[derive(Drop)]
pub struct CheckedPart {
    pub least: Option<(Code, u32)>,
    pub part: Part<Note>,
}

/// The parts of a list so far.
#[derive(Drop)]
pub struct CheckedParts {
    pub least: Option<(Code, u32)>,
    pub parts: Items<Part<Note>>,
}

/// A value of a list with names, checked but for its name.
#[derive(Drop)]
pub struct CheckedField {
    pub least: Option<(Code, u32)>,
    pub field: FieldInit<Note>,
}

/// The values of a list with names so far.
#[derive(Drop)]
pub struct CheckedFields {
    pub least: Option<(Code, u32)>,
    pub fields: Items<FieldInit<Note>>,
}
