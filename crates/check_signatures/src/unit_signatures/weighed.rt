//! A unit whose structures are weighed.

use default_values::initial_worths::Structure;
use symbol_table::unit_tables::UnitTables;

/// The tables of a unit, and its structures with what their fields are worth that are not given.
#[derive(Clone, Copy)]
pub struct Weighed<'a, 'u> {
    pub tables: &'a UnitTables<'u>,
    pub structures: &'a [Structure<'a>],
}
