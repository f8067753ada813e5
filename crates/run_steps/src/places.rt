//! What names stand for, and where references lead (IEC 61131-3:2013, 6.4.4.5, 6.4.4.10 and 6.6.6.6).

ghost use Rattle.std.specs.Prelude.{◌≡◌, MatchOption, None, Some};
ghost use Rattle.st_meaning.specs.Place as words;
ghost use Rattle.st_meaning.specs.Expression as expressions;
ghost use Rattle.st_meaning.specs.Operation as operation;
ghost use Rattle.st_meaning.specs.State as run;
ghost use Rattle.st_meaning.specs.State.{gives};
ghost use Rattle.run_steps.specs.Private.Places.{Leads, own_spot};
ghost use Rattle.value_trees.specs.Value.{value_of};
ghost use Rattle.run_state.specs.State.{Shows, spot_of, state_of};

use crate::values::path_in;
use plc_text::{FaultKind, NoMemory};
use run_state::{
    RunState, Spot, Stop, fault, into_part, load, local_spot, own_path, path_of, value_of_spot,
};
use st_tree::{Note, Path, Root, Step, Steps, Target};
use st_types::StType;
use std::alloc::Global;
use value_trees::{Value, copy_path};

/// The instance of the innermost call, as a spot.
fn own_spot(alloc: Global, m: &RunState, line: u32) -> Result<Spot, Stop>
    ensures { Shows spot_of result (own_spot line (state_of m.now)) (state_of m.now) }
{
    let path = own_path(alloc, m, line)?;
    Ok(Spot::Region(path))
}

/// A part of what stands at a spot.
fn part_of(m: &RunState, spot: Spot, step: Step) -> Result<Spot, Stop>
    ensures { Shows spot_of result (gives (run.into (spot_of spot) step) 0 (state_of m.now)) (state_of m.now) }
{
    let _ = m;
    match into_part(spot, step) {
        Ok(part) => Ok(part),
        Err(NoMemory) => Err(Stop::NoMemory),
    }
}

/// What a name stands for; a method's name means the own instance.
pub fn named_spot(alloc: Global, m: &RunState, target: &Target, line: u32) -> Result<Spot, Stop>
    ensures { Shows spot_of result (words.named_spot target.now line (state_of m.now)) (state_of m.now) }
{
    match target {
        Target::Local(n) => local_spot(alloc, m, *n, line),
        Target::Region(r) => Ok(Spot::Region(Path {
            region: *r,
            steps: Steps::new(alloc),
        })),
        Target::Variable(k) => {
            let spot = own_spot(alloc, m, line)?;
            part_of(m, spot, Step::Field(*k))
        }
        Target::Method(_) => own_spot(alloc, m, line),
        _ => Err(fault(FaultKind::Null, line)),
    }
}

/// What a place begins with. THIS and SUPER are the own instance.
pub fn root_spot(alloc: Global, m: &RunState, root: &Root<Note>, line: u32) -> Result<Spot, Stop>
    ensures { Shows spot_of result (words.root_spot root.now line (state_of m.now)) (state_of m.now) }
{
    match root {
        Root::Name(a, _) => named_spot(alloc, m, &a.target, line),
        Root::This(_) => own_spot(alloc, m, line),
        Root::Super(_) => own_spot(alloc, m, line),
    }
}

/// Where a reference or interface value leads.
fn led_to(alloc: Global, v: &Value, line: u32) -> Result<Path, Stop>
    ensures { Leads result line (operation.path_in (value_of v.now)) }
{
    match path_in(v) {
        Some(path) => match copy_path(alloc, path) {
            Ok(path) => Ok(path),
            Err(NoMemory) => Err(Stop::NoMemory),
        },
        None => Err(fault(FaultKind::Null, line)),
    }
}

/// Where the reference or interface value at a spot leads.
pub fn held_spot(alloc: Global, m: &RunState, spot: &Spot, line: u32) -> Result<Spot, Stop>
    ensures { Shows spot_of result (words.held_spot (spot_of spot.now) line (state_of m.now)) (state_of m.now) }
{
    match value_of_spot(m, spot) {
        Some(v) => {
            let path = led_to(alloc, v, line)?;
            Ok(Spot::Region(path))
        }
        None => Err(fault(FaultKind::Null, line)),
    }
}

/// `^`: on an instance it is the instance.
pub fn followed(
    alloc: Global,
    m: &RunState,
    kind: &StType,
    spot: Spot,
    line: u32,
) -> Result<Spot, Stop>
    ensures { Shows spot_of result (words.followed kind.now (spot_of spot) line (state_of m.now)) (state_of m.now) }
{
    match kind {
        StType::Instance(_) => Ok(spot),
        _ => held_spot(alloc, m, &spot, line),
    }
}

/// The instance on which a method is called: of an interface value the one that it holds.
pub fn instance_of(
    alloc: Global,
    m: &RunState,
    kind: &StType,
    spot: Spot,
    line: u32,
) -> Result<Spot, Stop>
    ensures { Shows spot_of result (words.instance_of kind.now (spot_of spot) line (state_of m.now)) (state_of m.now) }
{
    match kind {
        StType::Interface(_) => held_spot(alloc, m, &spot, line),
        _ => Ok(spot),
    }
}

/// A part by its name, or the instance of a method.
pub fn part_named(
    alloc: Global,
    m: &RunState,
    kind: &StType,
    spot: Spot,
    target: &Target,
    line: u32,
) -> Result<Spot, Stop>
    ensures { Shows spot_of result (words.part_named kind.now (spot_of spot) target.now line (state_of m.now)) (state_of m.now) }
{
    match target {
        Target::Field(k) => part_of(m, spot, Step::Field(*k)),
        Target::Variable(k) => part_of(m, spot, Step::Field(*k)),
        Target::Method(_) => instance_of(alloc, m, kind, spot, line),
        _ => Err(fault(FaultKind::Null, line)),
    }
}

/// The index, where the array has it.
pub fn index_in(kind: &StType, index: &i128) -> Option<i128>
    ensures { result ≡ words.index_in kind.now index.now }
{
    match kind {
        StType::Array(low, high, _) => {
            if *low <= *index && *index <= *high {
                Some(*index)
            } else {
                None
            }
        }
        _ => None,
    }
}

/// The type of the elements.
pub fn element_kind(kind: &StType) -> &StType
    ensures { result.now ≡ words.element_kind kind.now }
{
    match kind {
        StType::Array(_, _, of) => of.get(),
        _ => kind,
    }
}

/// The value of a place. A place of an instance's type means a reference to the instance.
#[tactic(auto, using(value_trees::specs::Value::value_views))]
pub fn place_value(
    alloc: Global,
    m: &RunState,
    kind: &StType,
    spot: Spot,
    line: u32,
) -> Result<Value, Stop>
    ensures { Shows value_of result (expressions.place_value kind.now (gives (spot_of spot)) line (state_of m.now)) (state_of m.now) }
{
    match kind {
        StType::Instance(_) => Ok(Value::Reference(path_of(spot))),
        _ => load(alloc, m, &spot, line),
    }
}
