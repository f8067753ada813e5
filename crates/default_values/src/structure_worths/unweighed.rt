//! Structures as they are declared, and the steps of containment that they take.

ghost use Rattle.std.specs.Prelude.{◌≡◌, ◌++◌, map, Some, IfOk, OnOk};
ghost use Rattle.default_values.specs.worth_steps.Steps.{kinds_in};
ghost use Rattle.default_values.specs.structure_worths.Private.Counted.{Counts, CountsOne, kinds_of};

use crate::initial_worths::{Group, Structure};
use crate::worth_steps::StructureSteps;
use plc_text::{Items, NoMemory, Text};
use st_rules::{DeclaredField, TypeParts, copied};
use st_tree::Name;
use st_types::StType;
use std::alloc::Global;

/// The groups of fields of an entry of TYPE, of which nothing is weighed; none where it is no structure.
#[derive(Drop)]
pub struct DeclaredStructure<'a> {
    pub groups: Vec<Group<'a>>,
}

fn field(alloc: Global, kind: &Option<StType>, name: &Name) -> Result<DeclaredField, NoMemory>
    ensures { IfOk result (λ f. f.kind ≡ kind.now) }
{
    let text = Text::copy(alloc, name.text.as_str())?;
    let kind = copied(alloc, kind)?;
    Ok(DeclaredField { name: text, kind })
}

/// Adds a field for each name.
fn add_fields(
    alloc: Global,
    list: &mut Items<DeclaredField>,
    kind: &Option<StType>,
    names: &[Name],
) -> Result<(), NoMemory>
    ensures { OnOk result (map (λ f. f.kind) list.new ≡ map (λ f. f.kind) list.old ++ map (λ n. kind.now) names.now) }
{
    for name in names {
        let one = field(alloc, kind, name)?;
        list.push(one)?;
    }
    Ok(())
}

/// The fields of a structure.
fn part_of(alloc: Global, structure: &DeclaredStructure<'_>) -> Result<TypeParts, NoMemory>
    ensures { IfOk result (λ p. kinds_in (Some p) ≡ kinds_of structure.now) }
{
    let mut list = Items::new(alloc);
    let groups = structure.groups.as_slice();
    for group in groups {
        add_fields(
            alloc,
            &mut list,
            &group.kind,
            group.declared.names.as_slice(),
        )?;
    }
    Ok(TypeParts::Fields(list))
}

/// The fields of all structures.
pub fn parts_of(
    alloc: Global,
    structures: &[DeclaredStructure<'_>],
) -> Result<Vec<TypeParts>, NoMemory>
    ensures { IfOk result (λ ps. map (λ p. kinds_in (Some p)) ps.items ≡ map kinds_of structures.now) }
{
    let mut list = Vec::new(alloc);
    for structure in structures {
        let part = part_of(alloc, structure)?;
        list.push(part)?;
    }
    Ok(list)
}

/// The structure of the number with the steps that it takes.
fn counted<'a>(
    counts: &StructureSteps,
    number: usize,
    structure: DeclaredStructure<'a>,
) -> Result<Structure<'a>, NoMemory>
    ensures { IfOk result (λ x. CountsOne counts.now.structures.items number structure.entry x) }
{
    let Ok(number) = u32::try_from(number) else {
        return Err(NoMemory);
    };
    let steps = counts.steps_of(&StType::Structure(number));
    Ok(Structure {
        steps,
        groups: structure.groups,
    })
}

/// Structures with the steps that they take.
pub fn with_steps<'a>(
    alloc: Global,
    counts: &StructureSteps,
    structures: Vec<DeclaredStructure<'a>>,
) -> Result<Vec<Structure<'a>>, NoMemory>
    ensures { IfOk result (λ xs. Counts counts.now.structures.items structures.entry.items xs.items) }
{
    let mut list = Vec::new(alloc);
    for structure in structures {
        let one = counted(counts, list.len(), structure)?;
        list.push(one)?;
    }
    Ok(list)
}
