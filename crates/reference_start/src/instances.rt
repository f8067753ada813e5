//! The instances of a program, members before their owner.

ghost use Rattle.std.specs.Prelude.{◌≡◌, ◌∷◌, ◌++◌, [], IfOk, IfSome, OnOk, option_map};
ghost use Rattle.st_values.specs.Shape.{extent};
ghost use Rattle.st_values.specs.View.{program_of};
ghost use Rattle.program_tables.specs.st_initial.Members as tables;
ghost use Rattle.program_tables.specs.st_initial.Variables.{variables_of};
ghost use Rattle.st_change.specs.Instances.{further};
ghost use Rattle.region_instances.specs.Instances.{RegionsUnfold};
ghost use Rattle.reference_start.specs.Private.Instances.{AddsElements, AddsFields, AddsType, AreInstances};

use plc_text::{Items, NoMemory, narrowed};
use program_tables::{Members, Variable};
use st_tree::{Path, Program, Step, Steps};
use st_types::StType;
use std::alloc::Global;
use value_trees::copy_path;

/// Steps of containment that types may have.
const DEPTH: u32 = 65;

/// An instance, by where it stands and the number of its class.
#[derive(Drop)]
pub struct Instance {
    pub path: Path,
    pub class: u32,
}

/// How many indices there are between two bounds, where a list can have so many.
fn count(low: &i128, high: &i128) -> Option<usize>
    ensures { IfSome result (λ n. n ≡ extent low.now high.now) }
{
    if *high < *low {
        return Some(0);
    }
    let last = usize::try_from(high.checked_sub(*low)?).ok()?;
    last.checked_add(1)
}

/// A part of what a path leads to.
fn part(alloc: Global, path: &Path, step: Step) -> Result<Path, NoMemory>
    ensures { IfOk result (λ q. q ≡ further path.now step) }
{
    let mut part = copy_path(alloc, path)?;
    part.steps.push(step)?;
    Ok(part)
}

/// Adds the instances in a place of a type, where that unfolds to a depth.
#[cycle(instances)]
fn push_type(
    alloc: Global,
    members: &Members<'_>,
    program: &Program,
    depth: u32,
    kind: &StType,
    path: &Path,
    found: &mut Vec<Instance>,
) -> Result<(), NoMemory>
    requires { tables.Holds (program_of program.now) members.now }
    ensures { OnOk result (AddsType (program_of program.now) depth kind.now path.now found.old.items found.new.items) }
{
    match kind {
        StType::Elementary(_) => Ok(()),
        StType::Enumeration(_) => Ok(()),
        StType::Reference(_) => Ok(()),
        StType::Interface(_) => Ok(()),
        StType::Array(low, high, of) => {
            if depth == 0 {
                return Ok(());
            }
            push_elements(
                alloc,
                members,
                program,
                depth - 1,
                of.get(),
                low,
                high,
                path,
                found,
            )?;
            Ok(())
        }
        StType::Structure(n) => {
            if depth == 0 {
                return Ok(());
            }
            let fields = members.structures.get(*n as usize);
            push_fields(alloc, members, program, depth - 1, fields, path, found)?;
            Ok(())
        }
        StType::Instance(c) => {
            if depth == 0 {
                return Ok(());
            }
            let variables = members.classes.get(*c as usize);
            push_fields(alloc, members, program, depth - 1, variables, path, found)?;
            push_instance(alloc, path, *c, found)?;
            Ok(())
        }
    }
}

/// Adds an instance.
fn push_instance(
    alloc: Global,
    path: &Path,
    class: u32,
    found: &mut Vec<Instance>,
) -> Result<(), NoMemory>
    ensures { OnOk result (found.new.items ≡ found.old.items ++ (record { path = path.now; class = class } ∷ [])) }
{
    let path = copy_path(alloc, path)?;
    found.push(Instance { path, class })?;
    Ok(())
}

/// Adds the instances in an array of elements of a type.
#[cycle(instances)]
fn push_elements(
    alloc: Global,
    members: &Members<'_>,
    program: &Program,
    depth: u32,
    of: &StType,
    low: &i128,
    high: &i128,
    path: &Path,
    found: &mut Vec<Instance>,
) -> Result<(), NoMemory>
    requires { tables.Holds (program_of program.now) members.now }
    ensures { OnOk result (AddsElements (program_of program.now) depth of.now path.now low.now (extent low.now high.now) found.old.items found.new.items) }
{
    let Some(end) = count(low, high) else {
        return Err(NoMemory);
    };
    let mut left = end;
    let mut index = *low;
    'elements: while left > 0 {
        let element = part(alloc, path, Step::Element(index))?;
        push_type(alloc, members, program, depth, of, &element, found)?;
        let Some(next) = index.checked_add(1) else {
            return Err(NoMemory);
        };
        index = next;
        left -= 1;
    }
    Ok(())
}

/// Adds the instances in variables, where there are any.
#[cycle(instances)]
fn push_fields(
    alloc: Global,
    members: &Members<'_>,
    program: &Program,
    depth: u32,
    variables: Option<&Items<Variable<'_>>>,
    path: &Path,
    found: &mut Vec<Instance>,
) -> Result<(), NoMemory>
    requires { tables.Holds (program_of program.now) members.now }
    ensures { OnOk result (AddsFields (program_of program.now) depth (variables_of (tables.items_at (option_map (λ vs. vs.now) variables.entry))) path.now found.old.items found.new.items) }
{
    let Some(variables) = variables else {
        return Ok(());
    };
    for (k, variable) in variables.as_slice().iter().enumerate() {
        let number = narrowed(k)?;
        let field = part(alloc, path, Step::Field(number))?;
        push_type(alloc, members, program, depth, variable.kind, &field, found)?;
    }
    Ok(())
}

/// The instances of a program, whose regions' types are to unfold.
pub fn instances(
    alloc: Global,
    program: &Program,
    members: &Members<'_>,
) -> Result<Vec<Instance>, NoMemory>
    requires { tables.Holds (program_of program.now) members.now }
    ensures { IfOk result (λ found. RegionsUnfold (program_of program.now) → AreInstances (program_of program.now) found.items) }
{
    let mut found = Vec::new(alloc);
    for (r, decl) in program.regions.as_slice().iter().enumerate() {
        let region = narrowed(r)?;
        let steps = Steps::new(alloc);
        let path = Path { region, steps };
        push_type(
            alloc, members, program, DEPTH, &decl.kind, &path, &mut found,
        )?;
    }
    Ok(found)
}
