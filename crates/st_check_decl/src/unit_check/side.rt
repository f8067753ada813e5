//! What a unit is checked by.

use crate::checked_declarations::ClassSide;
use check_configurations::UnitPrograms;
use check_limits::InterfaceHeights;
use name_resolution::Scope;
use symbol_table::unit_tables::UnitTables;

/// What a unit is checked by: its tables, the scope of the unit, its programs, and what classes and interfaces need.
#[derive(Clone, Copy)]
pub struct CheckSide<'a, 'u> {
    pub tables: &'a UnitTables<'u>,
    pub scope: &'a Scope<'a>,
    pub programs: &'a UnitPrograms<'u>,
    pub classes: ClassSide<'a>,
    pub heights: &'a InterfaceHeights,
}
