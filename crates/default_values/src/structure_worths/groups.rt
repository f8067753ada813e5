//! The fields of one structure.

ghost use Rattle.std.specs.Prelude.{IfOk};
ghost use Rattle.default_values.specs.structure_worths.Private.Groups.{WeighsGroup, WeighsGroups};

use crate::initial_worths::{ConstantValues, Group, Structure, weigh};
use crate::worth_numbers::WorthNumbers;
use plc_text::NoMemory;
use st_rules::copied;
use std::alloc::Global;

/// What a field of a group is worth that is not given, if it can be told within so many steps.
fn worth_of<S: ConstantValues>(
    alloc: Global,
    table: &mut WorthNumbers,
    structures: &[Structure<'_>],
    values: &S,
    steps: u32,
    group: &Group<'_>,
) -> Result<Option<u32>, NoMemory>
    ensures { IfOk result (λ w. WeighsGroup table.old table.new structures.now (S.scope values.now) steps group.now w) }
{
    match &group.kind {
        Some(kind) => {
            let given = group.declared.initial.as_ref();
            let worth = weigh(alloc, table, structures, values, steps, kind, given)?;
            Ok(worth)
        }
        None => Ok(None),
    }
}

/// The fields of a structure with what they are worth.
pub fn weigh_groups<'a, S: ConstantValues>(
    alloc: Global,
    table: &mut WorthNumbers,
    structures: &[Structure<'a>],
    values: &S,
    steps: u32,
    groups: &[Group<'a>],
) -> Result<Vec<Group<'a>>, NoMemory>
    ensures { IfOk result (λ list. WeighsGroups table.old table.new structures.now (S.scope values.now) steps groups.now list.items) }
{
    let mut list = Vec::new(alloc);
    for group in groups {
        let worth = worth_of(alloc, table, structures, values, steps, group)?;
        let kind = copied(alloc, &group.kind)?;
        list.push(Group {
            declared: group.declared,
            kind,
            worth,
        })?;
    }
    Ok(list)
}
