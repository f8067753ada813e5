//! A program with its tables.

use program_tables::{Members, ProgramTables};
use st_tree::Program;

/// A program with the tables of it that a change looks into.
#[derive(Clone, Copy)]
pub struct Side<'p> {
    pub program: &'p Program,
    pub tables: &'p ProgramTables,
    pub members: &'p Members<'p>,
}
