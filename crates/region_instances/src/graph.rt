//! The graph of what instances and structures hold: classes and programs first, structures behind them.

ghost use Rattle.std.specs.Prelude.{◌≡◌, ◌+◌, ◌≤◌, ◌++◌, map, IfOk, OnOk};
ghost use Rattle.program_tables.specs.st_initial.Variables.{variables_of};
ghost use Rattle.region_instances.specs.Private.Graph as words;

use crate::held::{Counts, node_of};
use plc_text::{Items, NoMemory};
use program_tables::{Members, Variable};
use std::alloc::Global;

/// The nodes of what variables hold.
fn nodes(alloc: Global, counts: Counts, variables: &[Variable<'_>]) -> Result<Items<u32>, NoMemory>
    requires { counts.classes + counts.structures ≤ 4294967295 }
    ensures { IfOk result (λ list. list ≡ words.nodes_of counts (variables_of variables.now)) }
{
    let mut list = Items::new(alloc);
    for variable in variables {
        if let Some(node) = node_of(counts, variable.kind) {
            list.push(node)?;
        }
    }
    Ok(list)
}

fn add_lists(
    alloc: Global,
    lists: &mut Vec<Items<u32>>,
    counts: Counts,
    members: &[Items<Variable<'_>>],
) -> Result<(), NoMemory>
    requires { counts.classes + counts.structures ≤ 4294967295 }
    ensures { OnOk result (lists.new.items ≡ lists.old.items ++ map (words.nodes_in counts) members.now) }
{
    for variables in members {
        let list = nodes(alloc, counts, variables.as_slice())?;
        lists.push(list)?;
    }
    Ok(())
}

/// Where the edges of each node lead.
pub fn graph(
    alloc: Global,
    counts: Counts,
    members: &Members<'_>,
) -> Result<Vec<Items<u32>>, NoMemory>
    requires { counts.classes + counts.structures ≤ 4294967295 }
    ensures { IfOk result (λ lists. lists.items ≡ words.lists_of counts members.now) }
{
    let mut lists = Vec::new(alloc);
    add_lists(alloc, &mut lists, counts, members.classes.as_slice())?;
    add_lists(alloc, &mut lists, counts, members.structures.as_slice())?;
    Ok(lists)
}
