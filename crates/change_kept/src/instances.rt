//! The instances of regions that are not kept.

ghost use Rattle.std.specs.Prelude.{◌≡◌, ◌∷◌, ◌++◌, [], not, if◌then◌else◌, IfOk, OnOk, map};
ghost use Rattle.st_change.specs.Change as words;
ghost use Rattle.st_change.specs.Counterpart as plain;
ghost use Rattle.st_change.specs.Instances.{further};
ghost use Rattle.st_values.specs.View.{program_of};
ghost use Rattle.reference_hooks.specs.Hooks.{member_of};
ghost use Rattle.change_names.specs.change_paths.Change.{IsChange};
ghost use Rattle.change_kept.specs.Kept.{AreKept};
ghost use Rattle.change_kept.specs.Private.Instances.{AddsElements, AddsFields, AddsRegion, AddsShape, is_first};

use crate::kept::{is_set, number_in};
use change_names::Change;
use plc_text::{NoMemory, narrowed};
use reference_hooks::Instance;
use shape_trees::{Field, Shape, Shapes};
use st_tree::{Path, Step, Steps};
use std::alloc::Global;
use value_trees::copy_path;

/// Where an owner stands among its members.
#[derive(Clone, Copy)]
pub enum Owner {
    First,
    Last,
}

fn is_first(owner: Owner) -> bool
    ensures { result ≡ is_first owner }
{
    match owner {
        Owner::First => true,
        Owner::Last => false,
    }
}

/// A part of what a path leads to.
fn part(alloc: Global, path: &Path, step: Step) -> Result<Path, NoMemory>
    ensures { IfOk result (λ q. q ≡ further path.now step) }
{
    let mut part = copy_path(alloc, path)?;
    part.steps.push(step)?;
    Ok(part)
}

/// Adds an instance, where it is wanted.
fn push_instance(
    alloc: Global,
    wanted: bool,
    path: &Path,
    class: u32,
    found: &mut Vec<Instance>,
) -> Result<(), NoMemory>
    ensures { OnOk result (found.new.items ≡ found.old.items ++ (if wanted then record { path = path.now; class = class } ∷ [] else [])) }
{
    if !wanted {
        return Ok(());
    }
    let path = copy_path(alloc, path)?;
    found.push(Instance { path, class })?;
    Ok(())
}

/// Adds the instances in a place of a shape.
#[cycle(instances)]
fn push_shape(
    alloc: Global,
    owner: Owner,
    shape: &Shape<'_>,
    path: &Path,
    found: &mut Vec<Instance>,
) -> Result<(), NoMemory>
    ensures { OnOk result (AddsShape owner shape.now path.now found.old.items found.new.items) }
{
    match shape {
        Shape::Elementary(_) => Ok(()),
        Shape::Enumeration(_, _) => Ok(()),
        Shape::Reference(_, _) => Ok(()),
        Shape::Interface(_, _) => Ok(()),
        Shape::Array(low, count, element) => {
            push_elements(alloc, owner, element.get(), low, *count, path, found)?;
            Ok(())
        }
        Shape::Structure(_, _, fields) => {
            push_fields(alloc, owner, fields.as_slice(), path, found)?;
            Ok(())
        }
        Shape::Instance(class, _, fields) => {
            let first = is_first(owner);
            push_instance(alloc, first, path, *class, found)?;
            push_fields(alloc, owner, fields.as_slice(), path, found)?;
            push_instance(alloc, !first, path, *class, found)?;
            Ok(())
        }
    }
}

/// Adds the instances in so many elements of a shape, from an index on.
#[cycle(instances)]
fn push_elements(
    alloc: Global,
    owner: Owner,
    element: &Shape<'_>,
    low: &i128,
    count: usize,
    path: &Path,
    found: &mut Vec<Instance>,
) -> Result<(), NoMemory>
    ensures { OnOk result (AddsElements owner element.now path.now low.now count found.old.items found.new.items) }
{
    let mut left = count;
    let mut index = *low;
    'elements: while left > 0 {
        let place = part(alloc, path, Step::Element(index))?;
        push_shape(alloc, owner, element, &place, found)?;
        let Some(next) = index.checked_add(1) else {
            return Err(NoMemory);
        };
        index = next;
        left -= 1;
    }
    Ok(())
}

/// Adds the instances in fields.
#[cycle(instances)]
fn push_fields(
    alloc: Global,
    owner: Owner,
    fields: &[Field<'_>],
    path: &Path,
    found: &mut Vec<Instance>,
) -> Result<(), NoMemory>
    ensures { OnOk result (AddsFields owner fields.now path.now found.old.items found.new.items) }
{
    for (k, field) in fields.iter().enumerate() {
        let number = narrowed(k)?;
        let place = part(alloc, path, Step::Field(number))?;
        push_shape(alloc, owner, &field.shape, &place, found)?;
    }
    Ok(())
}

/// Adds the instances of a region, where they are wanted.
fn push_region(
    alloc: Global,
    wanted: bool,
    owner: Owner,
    shapes: &Shapes<'_>,
    region: u32,
    found: &mut Vec<Instance>,
) -> Result<(), NoMemory>
    ensures { OnOk result (AddsRegion wanted owner shapes.now.list region found.old.items found.new.items) }
{
    if !wanted {
        return Ok(());
    }
    match shapes.list.get(region as usize) {
        Some(Some(shape)) => {
            let path = Path {
                region,
                steps: Steps::new(alloc),
            };
            push_shape(alloc, owner, shape, &path, found)?;
            Ok(())
        }
        Some(None) => Ok(()),
        None => Ok(()),
    }
}

/// Whether no kept region comes from one of the old program.
fn is_left(c: &Change<'_, '_>, kept: &[bool], region: u32) -> bool
    requires change { IsChange c.now }
    requires are_kept { AreKept (program_of c.now.old.program.now) (program_of c.now.new.program.now) kept.now }
    ensures { result ≡ not (plain.was_kept (program_of c.now.old.program.now) (program_of c.now.new.program.now) region) }
{
    match number_in(&c.names.regions.new, region) {
        Some(number) => !is_set(kept, number),
        None => true,
    }
}

/// The instances of the regions of the old program that are not kept, each owner before its members.
pub fn leaving(c: &Change<'_, '_>, kept: &[bool]) -> Result<Vec<Instance>, NoMemory>
    requires change { IsChange c.now }
    requires are_kept { AreKept (program_of c.now.old.program.now) (program_of c.now.new.program.now) kept.now }
    ensures { IfOk result (λ found. map (member_of (program_of c.now.old.program.now)) found.items ≡ words.leaving (program_of c.now.old.program.now) (program_of c.now.new.program.now)) }
{
    let mut found = Vec::new(c.alloc);
    for r in 0..c.old.program.regions.len() {
        let region = narrowed(r)?;
        let wanted = is_left(c, kept, region);
        push_region(
            c.alloc,
            wanted,
            Owner::First,
            c.old_shapes,
            region,
            &mut found,
        )?;
    }
    Ok(found)
}

/// The instances of the regions of the new program that are not kept, members before their owner.
pub fn coming(c: &Change<'_, '_>, kept: &[bool]) -> Result<Vec<Instance>, NoMemory>
    requires change { IsChange c.now }
    requires are_kept { AreKept (program_of c.now.old.program.now) (program_of c.now.new.program.now) kept.now }
    ensures { IfOk result (λ found. map (member_of (program_of c.now.new.program.now)) found.items ≡ words.coming (program_of c.now.old.program.now) (program_of c.now.new.program.now)) }
{
    let mut found = Vec::new(c.alloc);
    for r in 0..c.new.program.regions.len() {
        let region = narrowed(r)?;
        let wanted = !is_set(kept, region);
        push_region(
            c.alloc,
            wanted,
            Owner::Last,
            c.new_shapes,
            region,
            &mut found,
        )?;
    }
    Ok(found)
}
