//! The structures of a unit, weighed.

ghost use Rattle.std.specs.Prelude.{IfOk};
ghost use Rattle.default_values.specs.structure_worths.Weighed.{WeighsAll};

use crate::initial_worths::{ConstantValues, Structure};
use crate::structure_worths::rounds::weigh_structures;
use crate::structure_worths::unweighed::{DeclaredStructure, parts_of, with_steps};
use crate::worth_numbers::WorthNumbers;
use crate::worth_steps::StructureSteps;
use plc_text::NoMemory;
use std::alloc::Global;

/// What each field of each structure is worth that is not given, by the values of constants in the scope of the unit. Each structure is
/// weighed once.
pub fn structure_worths<'a, S: ConstantValues>(
    alloc: Global,
    table: &mut WorthNumbers,
    values: &S,
    declared: Vec<DeclaredStructure<'a>>,
) -> Result<Vec<Structure<'a>>, NoMemory>
    ensures { IfOk result (λ xs. WeighsAll table.old table.new (S.scope values.now) declared.entry.items xs.items) }
{
    let parts = parts_of(alloc, &declared)?;
    let counts = StructureSteps::build(alloc, &parts)?;
    let mut structures = with_steps(alloc, &counts, declared)?;
    weigh_structures(alloc, table, structures.as_mut_slice(), values)?;
    Ok(structures)
}
