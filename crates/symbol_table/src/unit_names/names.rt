//! The names of a unit.

ghost use Rattle.std.specs.Prelude.{◌≡◌, IfOk};
ghost use Rattle.st_unit_rules.specs.declared_names.UnitNames as unit_names;
ghost use Rattle.symbol_table.specs.unit_names.Private.Known.{IsKnown, decls_of, names_of};

use crate::unit_names::classes::declared_classes;
use crate::unit_names::globals::declared_globals;
use crate::unit_names::known::Known;
use crate::unit_names::parts::declared_parts;
use crate::unit_names::routines::declared_interfaces;
use crate::unit_names::types::declared_types;
use class_tables::ClassTables;
use declared_symbols::unit_untold::unit_untold;
use iface_tables::IfaceTables;
use plc_text::NoMemory;
use st_rules::DeclaredNames;
use st_tree::{Decl, Unit};
use std::alloc::Global;
use type_resolution::told_names::tell_all;

/// What is told of the names of a unit from what its tables tell.
fn names_from(
    alloc: Global,
    known: &Known<'_>,
    untold: &DeclaredNames,
    decls: &[Decl<u32>],
) -> Result<DeclaredNames, NoMemory>
    requires known { IsKnown known.now }
    requires decls { decls.now ≡ decls_of known.now }
    requires untold { untold.now ≡ unit_names.names_told decls.now 0 }
    ensures { IfOk result (λ names. names ≡ unit_names.names_from (decls_of known.now) (names_of known.now)) }
{
    let types = declared_types(alloc, known, decls)?;
    let parts = declared_parts(alloc, known, decls)?;
    let classes = declared_classes(alloc, known, untold, decls)?;
    let interfaces = declared_interfaces(alloc, known, decls)?;
    let globals = declared_globals(alloc, known, decls)?;
    Ok(DeclaredNames {
        types,
        parts,
        classes,
        interfaces,
        globals,
    })
}

/// All that a unit says of its names: their types, the values of constants, and their numbers. What lies on a cycle, or behind one, is not
/// told. It takes time linear in the unit but for constants of one routine that need one another in a row, each of which takes a round over
/// the routine's variables.
pub fn unit_names(
    alloc: Global,
    unit: &Unit,
    classes: &ClassTables,
    interfaces: &IfaceTables,
) -> Result<DeclaredNames, NoMemory>
    requires unit { classes.now ≡ unit.now }
    requires same { interfaces.now ≡ classes.now }
    ensures { IfOk result (λ names. names ≡ unit_names.unit_names unit.now.decls) }
{
    let tables = tell_all(alloc, unit, classes, interfaces)?;
    let untold = unit_untold(alloc, unit, classes)?;
    let known = Known {
        names: &tables,
        classes,
        interfaces,
    };
    let names = names_from(alloc, &known, &untold, unit.decls.as_slice())?;
    Ok(names)
}
