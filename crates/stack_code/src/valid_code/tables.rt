//! The tables of the code, indexed by what they are asked for.

ghost use Rattle.std.specs.Prelude.{IfOk, OnOk};
ghost use Rattle.stack_code.specs.valid_code.Private.Tables as t;

use crate::{Conformance, InterfaceTarget};
use plc_text::{Items, NoMemory};
use std::alloc::Global;
use std::collections::{HashMap, HashSet};

/// A class and a target.
pub type Pair = (u32, u32);

/// A class, an interface and a method.
pub type Implemented = (u32, (u32, u32));

fn note_pair(found: &mut HashSet<Pair>, class: u32, target: u32) -> Result<(), NoMemory>
    ensures { OnOk result (t.IsPairNoted found.old found.new class target) }
{
    found.insert((class, target))?;
    Ok(())
}

/// The pairs that conform.
pub fn pairs(alloc: Global, table: &[Conformance]) -> Result<HashSet<Pair>, NoMemory>
    ensures { IfOk result (λ s. t.ArePairs table.now s) }
{
    let mut found = HashSet::new(alloc);
    'entries: for entry in table {
        note_pair(&mut found, entry.class, entry.target)?;
    }
    Ok(found)
}

fn note_implementation(
    found: &mut HashMap<Implemented, u32>,
    entry: InterfaceTarget,
) -> Result<(), NoMemory>
    ensures { OnOk result (t.IsImplementationNoted found.old found.new entry) }
{
    found.insert(
        (entry.class, (entry.interface, entry.method)),
        entry.routine,
    )?;
    Ok(())
}

/// The routine by which a class implements a method of an interface. Filled from the last entry to the first, so that
/// the first one counts.
pub fn implementations(
    alloc: Global,
    table: &[InterfaceTarget],
) -> Result<HashMap<Implemented, u32>, NoMemory>
    ensures { IfOk result (λ m. t.AreImplementations table.now m) }
{
    let mut found = HashMap::new(alloc);
    let mut left = table.len();
    'entries: while left > 0 {
        left -= 1;
        note_implementation(&mut found, table[left])?;
    }
    Ok(found)
}

/// Puts the number behind those of the group.
fn note(
    alloc: Global,
    groups: &mut HashMap<u32, Items<u32>>,
    group: u32,
    number: u32,
) -> Result<(), NoMemory>
    ensures { OnOk result (t.IsNoted groups.old groups.new group number) }
{
    let mut numbers = match groups.remove(&group) {
        Some(numbers) => numbers,
        None => Items::new(alloc),
    };
    numbers.push(number)?;
    groups.insert(group, numbers)?;
    Ok(())
}

/// The classes that conform to each target.
pub fn conformers(
    alloc: Global,
    table: &[Conformance],
) -> Result<HashMap<u32, Items<u32>>, NoMemory>
    ensures { IfOk result (λ m. t.AreConformers table.now m) }
{
    let mut found = HashMap::new(alloc);
    'entries: for entry in table {
        note(alloc, &mut found, entry.target, entry.class)?;
    }
    Ok(found)
}
