//! A program with its tables.

use program_tables::{Members, ProgramTables};
use routine_tables::RoutineTables;
use st_tree::Program;
use std::alloc::Global;

/// A program with the tables of it.
pub struct Loaded<'p> {
    pub alloc: Global,
    pub program: &'p Program,
    pub tables: &'p ProgramTables,
    pub members: &'p Members<'p>,
    pub routines: &'p RoutineTables<'p>,
}
