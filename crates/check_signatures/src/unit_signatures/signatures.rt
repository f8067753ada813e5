//! The signatures of a unit.

ghost use Rattle.std.specs.Prelude.{IfOk};
ghost use Rattle.st_unit_rules.specs.DeclarationRules.{signatures};
ghost use Rattle.default_values.specs.numbered_signatures.Signatures.{Tells};
ghost use Rattle.check_signatures.specs.unit_signatures.Private.Unit.{TellsAll, WeighsUnit};

use crate::scope_values::ScopeValues;
use crate::unit_signatures::classes::class_signatures;
use crate::unit_signatures::interfaces::interface_signatures;
use crate::unit_signatures::structures::declared_structures;
use crate::unit_signatures::weighed::Weighed;
use default_values::initial_worths::Structure;
use default_values::numbered_signatures::NumberedSignatures;
use default_values::structure_worths::structure_worths;
use default_values::worth_numbers::WorthNumbers;
use plc_text::NoMemory;
use st_rules::Signatures;
use std::alloc::Global;
use symbol_table::unit_tables::UnitTables;

/// The structures of a unit with what their fields are worth.
fn structures<'u>(
    alloc: Global,
    tables: &UnitTables<'u>,
    table: &mut WorthNumbers,
) -> Result<Vec<Structure<'u>>, NoMemory>
    ensures { IfOk result (λ xs. WeighsUnit tables.now.decls table.old table.new xs.items) }
{
    let s = tables.scope(alloc, None, false, &[])?;
    let decls = tables.unit().decls.as_slice();
    let declared = declared_structures(alloc, &s, decls)?;
    let values = ScopeValues { alloc, scope: &s };
    let list = structure_worths(alloc, table, &values, declared)?;
    Ok(list)
}

/// The signatures of all methods.
fn all_signatures(
    alloc: Global,
    weighed: &Weighed<'_, '_>,
    table: &mut WorthNumbers,
) -> Result<Signatures<u32>, NoMemory>
    ensures { IfOk result (λ x. TellsAll weighed.now table.old table.new x) }
{
    let decls = weighed.tables.unit().decls.as_slice();
    let methods = class_signatures(alloc, weighed, table, decls)?;
    let prototypes = interface_signatures(alloc, weighed, table, decls)?;
    let falsehood = table.number(0)?;
    Ok(Signatures {
        methods,
        prototypes,
        falsehood,
    })
}

/// The signatures of all methods of classes and interfaces of a unit, with numbers for what initial values are worth. It takes time linear
/// in the unit but for constants of one routine that need one another in a row, and for initial values in which many names are given for
/// one structure.
pub fn unit_signatures(
    alloc: Global,
    tables: &UnitTables<'_>,
) -> Result<NumberedSignatures, NoMemory>
    ensures { IfOk result (λ x. Tells x.worths x.signatures (signatures tables.now.decls)) }
{
    let mut table = WorthNumbers::new(alloc);
    let list = structures(alloc, tables, &mut table)?;
    let weighed = Weighed {
        tables,
        structures: &list,
    };
    let signatures = all_signatures(alloc, &weighed, &mut table)?;
    Ok(NumberedSignatures {
        worths: table,
        signatures,
    })
}
