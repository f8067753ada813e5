//! Values are put at spots, and what a cycle wrote is taken back.

ghost use Rattle.std.specs.Prelude.{◌≡◌, [], None, map};
ghost use Rattle.st_meaning.specs.State as run;
ghost use Rattle.value_trees.specs.Value.{value_of, members_of};
ghost use Rattle.run_state.specs.State.{Agrees, Keeps, base_of, slot_of, spot_of, stack, state_of};
ghost use Rattle.run_state.specs.Private.Writes.{LocalPut, SlotPut};

use crate::log::{put_region, remember, take_back};
use crate::state::{Frame, RunState, Slot, Spot, Stop, fault};
use plc_text::{FaultKind, NoMemory, Series};
use st_tree::Step;
use std::alloc::Global;
use std::mem;
use value_trees::{Value, exchange_at};

/// Puts a slot in the place of one that was only held there.
fn put_back(slot: &mut Slot, held: Slot)
    ensures { slot.new ≡ held }
{
    *slot = held;
}

fn put_in_slot(slot: &mut Slot, steps: &[Step], new: Value) -> bool
    ensures { SlotPut result (slot_of slot.old) steps.now (value_of new) (slot_of slot.new) }
{
    match mem::replace(slot, Slot::Unbound) {
        Slot::Holds(mut v) => {
            let done = match exchange_at(&mut v, steps, new) {
                Ok(_) => true,
                Err(_) => false,
            };
            put_back(slot, Slot::Holds(v));
            done
        }
        Slot::Bound(spot) => {
            put_back(slot, Slot::Bound(spot));
            false
        }
        Slot::Unbound => false,
    }
}

fn put_local(
    frames: &mut Series<Frame>,
    depth: usize,
    local: u32,
    steps: &[Step],
    new: Value,
) -> bool
    ensures { LocalPut result (stack [] frames.old) depth local steps.now (value_of new) (stack [] frames.new) }
{
    match frames.get_mut(depth) {
        Some(frame) => match frame.locals.get_mut(local as usize) {
            Some(slot) => put_in_slot(slot, steps, new),
            None => false,
        },
        None => false,
    }
}

/// Puts a value at a spot, and remembers what stood in a region.
pub fn put(alloc: Global, m: &mut RunState, spot: &Spot, new: Value, line: u32) -> Result<(), Stop>
    ensures run { Agrees result (run.write (spot_of spot.now) (value_of new) line (state_of m.old)) (state_of m.new) }
    ensures base { Keeps result (base_of m.old) (base_of m.new) }
{
    match spot {
        Spot::Region(path) => match put_region(&mut m.store, path, new) {
            Some(old) => match remember(alloc, &mut m.undo, &m.store, path, old) {
                Ok(()) => Ok(()),
                Err(NoMemory) => Err(Stop::NoMemory),
            },
            None => Err(fault(FaultKind::Null, line)),
        },
        Spot::Local(depth, local, steps) => {
            if put_local(&mut m.frames, *depth, *local, steps.as_slice(), new) {
                Ok(())
            } else {
                Err(fault(FaultKind::Null, line))
            }
        }
    }
}

/// Puts back all that was replaced in regions since the cycle began.
pub fn roll_back(m: &mut RunState)
    ensures store { members_of m.new.store ≡ base_of m.old }
    ensures undo { m.new.undo.replaced ≡ [] }
    ensures whole { m.new.undo.whole ≡ None }
{
    take_back(&mut m.store, &mut m.undo.replaced);
    let Some(whole) = m.undo.whole.take() else {
        return;
    };
    m.store = whole;
}
