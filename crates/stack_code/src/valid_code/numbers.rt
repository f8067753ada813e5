//! Whether each number of a routine is that of one.

ghost use Rattle.std.specs.Prelude.{◌≡◌, ◌↔◌, IsTrue};
ghost use Rattle.stack_code.specs.valid_code.Private.Checks as k;

use crate::{MachineCode, Op, RoutineCode};
use plc_text::Items;

fn op_within(op: Op, count: usize) -> bool
    ensures { result ≡ k.op_within count op }
{
    match op {
        Op::Call(routine, _) => (routine as usize) < count,
        _ => true,
    }
}

fn calls_within(routine: &RoutineCode, count: usize) -> bool
    ensures { result ≡ k.calls_within count routine.now }
{
    routine
        .ops
        .as_slice()
        .iter()
        .all(|op| op_within(*op, count))
}

fn slot_within(slot: Option<u32>, count: usize) -> bool
    ensures { result ≡ k.slot_within count slot }
{
    match slot {
        Some(routine) => (routine as usize) < count,
        None => true,
    }
}

fn slots_within(slots: &Items<Option<u32>>, count: usize) -> bool
    ensures { result ≡ k.slots_within count slots.now }
{
    slots
        .as_slice()
        .iter()
        .all(|slot| slot_within(*slot, count))
}

fn all_calls_within(code: &MachineCode, count: usize) -> bool
    ensures { result ≡ k.all_calls_within count code.now }
{
    code.routines
        .as_slice()
        .iter()
        .all(|routine| calls_within(routine, count))
}

fn all_slots_within(code: &MachineCode, count: usize) -> bool
    ensures { result ≡ k.all_slots_within count code.now }
{
    code.slots
        .as_slice()
        .iter()
        .all(|slots| slots_within(slots, count))
}

fn targets_within(code: &MachineCode, count: usize) -> bool
    ensures { result ≡ k.targets_within count code.now }
{
    code.targets
        .as_slice()
        .iter()
        .all(|target| (target.routine as usize) < count)
}

fn bodies_within(code: &MachineCode, count: usize) -> bool
    ensures { result ≡ k.bodies_within count code.now }
{
    code.bodies
        .as_slice()
        .iter()
        .all(|body| (body.routine as usize) < count)
}

fn methods_within(code: &MachineCode, count: usize) -> bool
    ensures { result ≡ k.methods_within count code.now }
{
    code.methods
        .as_slice()
        .iter()
        .all(|method| (method.routine as usize) < count)
}

/// Whether each number of a routine in the code is that of one.
pub fn all_within(code: &MachineCode) -> bool
    ensures { IsTrue result ↔ k.AreWithin code.now }
{
    let count = code.routines.len();
    if !all_calls_within(code, count) {
        return false;
    }
    if !all_slots_within(code, count) {
        return false;
    }
    if !targets_within(code, count) {
        return false;
    }
    if !bodies_within(code, count) {
        return false;
    }
    methods_within(code, count)
}
