//! Spots, and what stands there.

ghost use Rattle.std.specs.Prelude.{◌≡◌, IfOk, option_map};
ghost use Rattle.st_values.specs.Value as plain;
ghost use Rattle.st_meaning.specs.State as run;
ghost use Rattle.value_trees.specs.Value.{value_of};
ghost use Rattle.run_state.specs.State.{Shows, slot_of, spot_of, state_of};
ghost use Rattle.run_state.specs.Places.{spot_value};

use crate::state::{RunState, Slot, Spot, Stop, fault};
use plc_text::{FaultKind, NoMemory};
use st_tree::{Path, Step};
use std::alloc::Global;
use value_trees::{Value, copy_path, copy_value, value_at};

fn held_in(slot: &Slot) -> Option<&Value>
    ensures { option_map (λ v. value_of v.now) result ≡ run.held_in (slot_of slot.now) }
{
    match slot {
        Slot::Holds(v) => Some(v),
        Slot::Bound(_) => None,
        Slot::Unbound => None,
    }
}

fn local_value(m: &RunState, depth: usize, local: u32) -> Option<&Value>
    ensures { option_map (λ v. value_of v.now) result ≡ run.frame_value (run.frame_at (state_of m.now).frames depth) local }
{
    match m.frames.get(depth) {
        Some(frame) => match frame.locals.get(local as usize) {
            Some(slot) => held_in(slot),
            None => None,
        },
        None => None,
    }
}

fn region_value(m: &RunState, region: u32) -> Option<&Value>
    ensures { option_map (λ v. value_of v.now) result ≡ plain.member (state_of m.now).store region }
{
    match m.store.get(region as usize) {
        Some(member) => Some(&member.value),
        None => None,
    }
}

/// What stands at a spot.
pub fn value_of_spot<'a>(m: &'a RunState, spot: &Spot) -> Option<&'a Value>
    ensures { option_map (λ v. value_of v.now) result ≡ spot_value (state_of m.now) (spot_of spot.now) }
{
    match spot {
        Spot::Region(path) => match region_value(m, path.region) {
            Some(v) => value_at(v, path.steps.as_slice()),
            None => None,
        },
        Spot::Local(depth, local, steps) => match local_value(m, *depth, *local) {
            Some(v) => value_at(v, steps.as_slice()),
            None => None,
        },
    }
}

/// A copy of what stands at a spot.
pub fn load(alloc: Global, m: &RunState, spot: &Spot, line: u32) -> Result<Value, Stop>
    ensures { Shows value_of result (run.read (spot_of spot.now) line (state_of m.now)) (state_of m.now) }
{
    match value_of_spot(m, spot) {
        Some(v) => match copy_value(alloc, v) {
            Ok(v) => Ok(v),
            Err(NoMemory) => Err(Stop::NoMemory),
        },
        None => Err(fault(FaultKind::Null, line)),
    }
}

/// A step further.
pub fn into_part(spot: Spot, step: Step) -> Result<Spot, NoMemory>
    ensures { IfOk result (λ part. spot_of part ≡ run.into (spot_of spot) step) }
{
    match spot {
        Spot::Region(path) => {
            let Path { region, mut steps } = path;
            steps.push(step)?;
            Ok(Spot::Region(Path { region, steps }))
        }
        Spot::Local(depth, local, mut steps) => {
            steps.push(step)?;
            Ok(Spot::Local(depth, local, steps))
        }
    }
}

/// The path of a spot in a region, where instances stand.
pub fn path_of(spot: Spot) -> Option<Path>
    ensures { result ≡ run.path_of (spot_of spot) }
{
    match spot {
        Spot::Region(path) => Some(path),
        Spot::Local(_, _, _) => None,
    }
}

/// The same spot again.
pub fn copy_spot(alloc: Global, spot: &Spot) -> Result<Spot, NoMemory>
    ensures { IfOk result (λ copy. copy ≡ spot.now) }
{
    match spot {
        Spot::Region(path) => Ok(Spot::Region(copy_path(alloc, path)?)),
        Spot::Local(depth, local, steps) => {
            let steps = steps.copy(alloc)?;
            Ok(Spot::Local(*depth, *local, steps))
        }
    }
}
