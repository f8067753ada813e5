//! Rounds over the structures of a unit: in each those that take one step of containment more.

ghost use Rattle.std.specs.Prelude.{◌≡◌, ◌<◌, suc, length, set, slice_get, Some, None, IfOk, OnOk, MatchOption};
ghost use Rattle.default_values.specs.structure_worths.Private.Rounds.{TriesTo, WeighsCounted, WeighsOne};

use crate::initial_worths::{ConstantValues, Structure};
use crate::structure_worths::groups::weigh_groups;
use crate::worth_numbers::WorthNumbers;
use plc_text::NoMemory;
use std::alloc::Global;

/// The most steps of containment that a type may take.
const MOST: u32 = 66;

fn put<'a>(structures: &mut [Structure<'a>], number: usize, structure: Structure<'a>)
    requires { number < length structures.old }
    ensures { structures.new ≡ set structures.old number structure.entry }
{
    structures[number] = structure;
}

fn structure_at<'s, 'a>(structures: &'s [Structure<'a>], number: usize) -> Option<&'s Structure<'a>>
    ensures { MatchOption result (slice_get structures.now number ≡ None) (λ x. slice_get structures.now number ≡ Some x.now) }
{
    structures.get(number)
}

/// The structure of the number with the worths of its fields, where these take just so many steps.
fn weighed<'a, S: ConstantValues>(
    alloc: Global,
    table: &mut WorthNumbers,
    structures: &[Structure<'a>],
    values: &S,
    below: u32,
    number: usize,
) -> Result<Option<Structure<'a>>, NoMemory>
    requires { below < 66 }
    ensures { IfOk result (λ y. WeighsOne table.old table.new structures.now (S.scope values.now) below number y) }
{
    let Some(structure) = structure_at(structures, number) else {
        return Ok(None);
    };
    if structure.steps != below + 1 {
        return Ok(None);
    }
    let list = structure.groups.as_slice();
    let groups = weigh_groups(alloc, table, structures, values, below, list)?;
    Ok(Some(Structure {
        steps: structure.steps,
        groups,
    }))
}

/// Weighs the structure of the number, where its fields take just so many steps.
fn try_one<S: ConstantValues>(
    alloc: Global,
    table: &mut WorthNumbers,
    structures: &mut [Structure<'_>],
    values: &S,
    below: u32,
    number: usize,
) -> Result<(), NoMemory>
    requires few { below < 66 }
    requires within { number < length structures.old }
    ensures { OnOk result (TriesTo table.old table.new (S.scope values.now) below structures.old number structures.new (suc number)) }
{
    let found = weighed(alloc, table, structures, values, below, number)?;
    match found {
        Some(structure) => {
            put(structures, number, structure);
            Ok(())
        }
        None => Ok(()),
    }
}

/// One round.
fn round<S: ConstantValues>(
    alloc: Global,
    table: &mut WorthNumbers,
    structures: &mut [Structure<'_>],
    values: &S,
    below: u32,
) -> Result<(), NoMemory>
    requires { below < 66 }
    ensures { OnOk result (TriesTo table.old table.new (S.scope values.now) below structures.old 0 structures.new (length structures.new)) }
{
    for number in 0..structures.len() {
        try_one(alloc, table, structures, values, below, number)?;
    }
    Ok(())
}

/// All rounds: what each field of each structure is worth that is not given.
pub fn weigh_structures<S: ConstantValues>(
    alloc: Global,
    table: &mut WorthNumbers,
    structures: &mut [Structure<'_>],
    values: &S,
) -> Result<(), NoMemory>
    ensures { OnOk result (WeighsCounted table.old table.new (S.scope values.now) structures.old structures.new) }
{
    for below in 0..MOST {
        round(alloc, table, structures, values, below)?;
    }
    Ok(())
}
