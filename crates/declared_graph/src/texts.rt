//! What the bounds of types and initial values name.

ghost use Rattle.std.specs.Prelude.{◌≡◌, ◌++◌, flat_map, option_map, IfOk, OnOk};
ghost use Rattle.st_tree.specs.Initial.{initial_of, part_of, parts_of, field_of, fields_of};
ghost use Rattle.st_rules.specs.Faults.{least};
ghost use Rattle.st_unit_rules.specs.Cycles as cycles;
ghost use Rattle.declared_graph.specs.Private.Names.{named_as, all_named, named_in_bound, named_in_arrays, own_value_lent};

use crate::names::{Named, add_expression};
use plc_text::{Code, NoMemory, Text};
use st_rules::{earlier, when};
use st_tree::{ArraySpec, Bounds, FieldInit, Init, Item, Part, TypeSpec};
use std::alloc::Global;

fn add_bounds<'a>(list: &mut Vec<Named<'a>>, bounds: &'a [Bounds<u32>]) -> Result<(), NoMemory>
    ensures { OnOk result (all_named list.new.items ≡ all_named list.old.items ++ flat_map named_in_bound bounds.now) }
{
    for bound in bounds {
        add_expression(list, &bound.low)?;
        add_expression(list, &bound.high)?;
    }
    Ok(())
}

fn add_arrays<'a>(list: &mut Vec<Named<'a>>, arrays: &'a [ArraySpec<u32>]) -> Result<(), NoMemory>
    ensures { OnOk result (all_named list.new.items ≡ all_named list.old.items ++ named_in_arrays arrays.now) }
{
    for array in arrays {
        add_bounds(list, array.bounds.as_slice())?;
    }
    Ok(())
}

/// What the bounds of a type name.
#[tactic(auto, using(crate::proofs::NameLaws::bounds_are))]
pub fn bound_names<'a>(alloc: Global, spec: &'a TypeSpec<u32>) -> Result<Vec<Named<'a>>, NoMemory>
    ensures { IfOk result (λ list. all_named list.items ≡ cycles.named_in_bounds spec.now) }
{
    let mut list = Vec::new(alloc);
    add_arrays(&mut list, spec.arrays.as_slice())?;
    Ok(list)
}

/// Adds what an initial value names.
#[cycle(values)]
#[tactic(auto, using(st_tree::specs::Initial::initial_views))]
fn add_initial<'a>(list: &mut Vec<Named<'a>>, initial: &'a Init<u32>) -> Result<(), NoMemory>
    ensures { OnOk result (all_named list.new.items ≡ all_named list.old.items ++ cycles.named_in_initial (initial_of initial.now)) }
{
    match initial {
        Init::Value(e) => add_expression(list, e)?,
        Init::Array(_, parts) => add_parts(list, parts.as_slice())?,
        Init::Fields(_, fields) => add_fields(list, fields.as_slice())?,
    }
    Ok(())
}

#[cycle(values)]
fn add_parts<'a>(list: &mut Vec<Named<'a>>, parts: &'a [Part<u32>]) -> Result<(), NoMemory>
    ensures { OnOk result (all_named list.new.items ≡ all_named list.old.items ++ cycles.named_in_parts (parts_of parts.now)) }
{
    for part in parts {
        add_part(list, part)?;
    }
    Ok(())
}

#[cycle(values)]
#[tactic(auto, using(st_tree::specs::Initial::initial_views))]
fn add_part<'a>(list: &mut Vec<Named<'a>>, part: &'a Part<u32>) -> Result<(), NoMemory>
    ensures { OnOk result (all_named list.new.items ≡ all_named list.old.items ++ cycles.named_in_part (part_of part.now)) }
{
    match part {
        Part::One(initial) => add_initial(list, initial)?,
        Part::Repeated(_, _, initial) => add_initial(list, initial)?,
    }
    Ok(())
}

#[cycle(values)]
fn add_fields<'a>(list: &mut Vec<Named<'a>>, fields: &'a [FieldInit<u32>]) -> Result<(), NoMemory>
    ensures { OnOk result (all_named list.new.items ≡ all_named list.old.items ++ cycles.named_in_fields (fields_of fields.now)) }
{
    for field in fields {
        add_field(list, field)?;
    }
    Ok(())
}

#[cycle(values)]
#[tactic(auto, using(st_tree::specs::Initial::initial_views))]
fn add_field<'a>(list: &mut Vec<Named<'a>>, field: &'a FieldInit<u32>) -> Result<(), NoMemory>
    ensures { OnOk result (all_named list.new.items ≡ all_named list.old.items ++ cycles.named_in_initial (field_of field.now).2) }
{
    add_initial(list, &field.value)
}

/// Adds what a value names.
fn add_value<'a>(list: &mut Vec<Named<'a>>, value: &'a Option<Init<u32>>) -> Result<(), NoMemory>
    ensures { OnOk result (all_named list.new.items ≡ all_named list.old.items ++ cycles.named_in_value (option_map initial_of value.now)) }
{
    if let Some(initial) = value {
        add_initial(list, initial)?;
    }
    Ok(())
}

/// What the bounds of an item's type and its initial value name.
pub fn item_names<'a>(alloc: Global, item: &'a Item<u32>) -> Result<Vec<Named<'a>>, NoMemory>
    ensures { IfOk result (λ list. all_named list.items ≡ cycles.named_in_bounds item.now.kind ++ cycles.named_in_value (option_map initial_of item.now.initial)) }
{
    let mut list = bound_names(alloc, &item.kind)?;
    add_value(&mut list, &item.initial)?;
    Ok(list)
}

/// E05 at the name before `#`, where it is this one.
fn own_value(name: &Text, named: &Named<'_>) -> Option<(Code, u32)>
    ensures { result ≡ least (cycles.own_value name.now (named_as named.now)) }
{
    match named {
        Named::BeforeHash(line, before) => when(**before == *name, Code::E05, *line),
        Named::Alone(_) => None,
        Named::BeforeDot(_) => None,
    }
}

/// E05 at the least line of such a name.
fn own_names_fault(name: &Text, names: &[Named<'_>]) -> Option<(Code, u32)>
    ensures { result ≡ least (flat_map (own_value_lent name.now) names.now) }
{
    let mut found = None;
    for named in names {
        found = earlier(found, own_value(name, named));
    }
    found
}

/// E05 at the least line where the bounds of a type name a value of the type that has this name, which is the type itself. It takes time
/// linear in the text.
#[tactic(auto, using(crate::proofs::OwnLaws::own_is))]
pub fn own_values_fault(
    alloc: Global,
    name: &Text,
    spec: &TypeSpec<u32>,
) -> Result<Option<(Code, u32)>, NoMemory>
    ensures { IfOk result (λ f. f ≡ least (cycles.own_values name.now spec.now)) }
{
    let names = bound_names(alloc, spec)?;
    Ok(own_names_fault(name, &names))
}
