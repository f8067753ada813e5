//! Open calls.

ghost use Rattle.std.specs.Prelude.{◌≡◌, IfOk, Some, option_map};
ghost use Rattle.st_meaning.specs.State as run;
ghost use Rattle.run_state.specs.State.{Agrees, Keeps, Shows, base_of, frame_of, slot_of, spot_of, state_of};
ghost use Rattle.run_state.specs.Private.Frames.{top_of};

use crate::places::copy_spot;
use crate::state::{Frame, RunState, Slot, Spot, Stop, fault};
use plc_text::{FaultKind, NoMemory};
use st_tree::{Path, Steps};
use std::alloc::Global;
use value_trees::copy_path;

/// Opens a call.
pub fn push(m: &mut RunState, frame: Frame) -> Result<(), Stop>
    ensures run { Agrees result (run.push (frame_of frame) 0 (state_of m.old)) (state_of m.new) }
    ensures base { Keeps result (base_of m.old) (base_of m.new) }
{
    match m.frames.push(frame) {
        Ok(()) => Ok(()),
        Err(NoMemory) => Err(Stop::NoMemory),
    }
}

/// Ends the innermost call, and gives what it leaves.
pub fn pop(m: &mut RunState, line: u32) -> Result<Frame, Stop>
    ensures run { Shows frame_of result (run.pop line (state_of m.old)) (state_of m.new) }
    ensures base { Keeps result (base_of m.old) (base_of m.new) }
{
    match m.frames.pop() {
        Some(frame) => Ok(frame),
        None => Err(fault(FaultKind::Null, line)),
    }
}

fn top(m: &RunState) -> Option<&Frame>
    ensures { option_map (λ f. frame_of f.now) result ≡ top_of (state_of m.now).frames }
{
    let depth = m.frames.len();
    if depth == 0 {
        return None;
    }
    m.frames.get(depth - 1)
}

// The place that a slot of this number stands for.
fn spot_in(alloc: Global, depth: usize, local: u32, slot: &Slot) -> Result<Option<Spot>, NoMemory>
    ensures { IfOk result (λ spot. option_map spot_of spot ≡ run.spot_in depth local (Some (slot_of slot.now))) }
{
    match slot {
        Slot::Holds(_) => Ok(Some(Spot::Local(depth, local, Steps::new(alloc)))),
        Slot::Bound(spot) => Ok(Some(copy_spot(alloc, spot)?)),
        Slot::Unbound => Ok(None),
    }
}

/// Where a local of the innermost call is, or what it stands for.
pub fn local_spot(alloc: Global, m: &RunState, local: u32, line: u32) -> Result<Spot, Stop>
    ensures { Shows spot_of result (run.local_spot local line (state_of m.now)) (state_of m.now) }
{
    match top(m) {
        Some(frame) => match frame.locals.get(local as usize) {
            Some(slot) => match spot_in(alloc, m.frames.len().saturating_sub(1), local, slot) {
                Ok(Some(spot)) => Ok(spot),
                Ok(None) => Err(fault(FaultKind::Null, line)),
                Err(NoMemory) => Err(Stop::NoMemory),
            },
            None => Err(fault(FaultKind::Null, line)),
        },
        None => Err(fault(FaultKind::Null, line)),
    }
}

/// The instance of the innermost call.
pub fn own_path(alloc: Global, m: &RunState, line: u32) -> Result<Path, Stop>
    ensures { Agrees result (run.own line (state_of m.now)) (state_of m.now) }
{
    match top(m) {
        Some(frame) => match &frame.own {
            Some(path) => match copy_path(alloc, path) {
                Ok(path) => Ok(path),
                Err(NoMemory) => Err(Stop::NoMemory),
            },
            None => Err(fault(FaultKind::Null, line)),
        },
        None => Err(fault(FaultKind::Null, line)),
    }
}
