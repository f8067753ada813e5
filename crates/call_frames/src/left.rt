//! What a routine leaves: its locals in the frame, and the variables of its instance.

ghost use Rattle.std.specs.Prelude.{◌≡◌, Some, option_map};
ghost use Rattle.st_meaning.specs.State.{frame_value, there};
ghost use Rattle.call_frames.specs.Left.{variable_value};
ghost use Rattle.run_state.specs.State.{Shows, frame_of, state_of};
ghost use Rattle.value_trees.specs.Value.{value_of};

use crate::opening::variable_spot;
use plc_text::{FaultKind, NoMemory};
use run_state::{Frame, RunState, Slot, Stop, fault, load};
use st_tree::Path;
use std::alloc::Global;
use value_trees::{Value, copy_value};

/// The value of a local of a call that has ended: the result is local 0, outputs of functions and methods are locals.
pub fn left_in_local(
    alloc: Global,
    m: &RunState,
    frame: &Frame,
    local: u32,
    line: u32,
) -> Result<Value, Stop>
    ensures { Shows value_of result (there (frame_value (Some (frame_of frame.now)) local) line (state_of m.now)) (state_of m.now) }
{
    match frame.locals.get(local as usize) {
        Some(slot) => match slot {
            Slot::Holds(v) => match copy_value(alloc, v) {
                Ok(v) => Ok(v),
                Err(NoMemory) => Err(Stop::NoMemory),
            },
            Slot::Bound(_) => Err(fault(FaultKind::Null, line)),
            Slot::Unbound => Err(fault(FaultKind::Null, line)),
        },
        None => Err(fault(FaultKind::Null, line)),
    }
}

/// The value of a variable of an instance: the outputs of a block.
pub fn left_in_variable(
    alloc: Global,
    m: &RunState,
    own: Option<&Path>,
    k: u32,
    line: u32,
) -> Result<Value, Stop>
    ensures { Shows value_of result (variable_value (option_map (λ q. q.now) own.entry) k line (state_of m.now)) (state_of m.now) }
{
    let Some(own) = own else {
        return Err(fault(FaultKind::Null, line));
    };
    let Ok(spot) = variable_spot(alloc, own, k) else {
        return Err(Stop::NoMemory);
    };
    load(alloc, m, &spot, line)
}
