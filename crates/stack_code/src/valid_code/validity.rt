//! Which code is valid.

ghost use Rattle.std.specs.Prelude.{◌≡◌, ◌↔◌, ◌<◌, ◌+◌, ◌^◌, ℕ, [], length, slice_get, Some, IsTrue, IfOk, OnOk};
ghost use Rattle.stack_code.specs.Validity as v;
ghost use Rattle.stack_code.specs.valid_code.Private.Tables as t;
ghost use Rattle.stack_code.specs.valid_code.Private.Entered as e;
ghost use Rattle.stack_code.specs.valid_code.Private.Checks as k;

use crate::valid_code::entered::{Entered, begin};
use crate::valid_code::numbers::all_within;
use crate::valid_code::rules::is_fine;
use crate::valid_code::tables::Implemented;
use crate::{MachineCode, Op, RoutineCode};
use plc_text::NoMemory;
use std::alloc::Global;
use std::collections::HashMap;

fn op_at(routine: &RoutineCode, at: usize) -> Op
    requires { at < length routine.now.ops }
    ensures { slice_get routine.now.ops at ≡ Some result }
{
    routine.ops.as_slice()[at]
}

/// Whether what is listed for the instruction is within the room, and its rule holds.
fn is_fine_at(
    alloc: Global,
    code: &MachineCode,
    entered: &mut Entered,
    routine: &RoutineCode,
    at: usize,
) -> Result<bool, NoMemory>
    requires at { at < length routine.now.ops }
    requires count { at + 1 < 2 ^ 64 }
    requires lists { length routine.now.kinds ≡ length routine.now.ops }
    requires known { e.IsKnown code.now entered.old }
    ensures known { OnOk result (e.IsKnown code.now entered.new) }
    ensures fine { IfOk result (λ b. IsTrue b ↔ k.IsFineAt code.now routine.now at) }
{
    let op = op_at(routine, at);
    match routine.kinds.get(at) {
        Some(Some(kinds)) => {
            if kinds.len() > routine.room as usize {
                return Ok(false);
            }
            is_fine(alloc, code, entered, routine, at, op, kinds.as_slice())
        }
        _ => Ok(true),
    }
}

/// Whether each instruction is fine.
fn are_fine(
    alloc: Global,
    code: &MachineCode,
    entered: &mut Entered,
    routine: &RoutineCode,
) -> Result<bool, NoMemory>
    requires lists { length routine.now.kinds ≡ length routine.now.ops }
    requires known { e.IsKnown code.now entered.old }
    ensures known { OnOk result (e.IsKnown code.now entered.new) }
    ensures fine { IfOk result (λ b. IsTrue b ↔ ((at : ℕ) → at < length routine.now.ops → k.IsFineAt code.now routine.now at)) }
{
    'places: for at in 0..routine.ops.len() {
        if !is_fine_at(alloc, code, entered, routine, at)? {
            return Ok(false);
        }
    }
    Ok(true)
}

/// Whether the first instruction has the empty list.
fn begins_empty(routine: &RoutineCode) -> bool
    ensures { IsTrue result ↔ (v.kinds_at routine.now 0 ≡ Some []) }
{
    match routine.kinds.get(0) {
        Some(Some(kinds)) => kinds.is_empty(),
        _ => false,
    }
}

fn is_valid_routine(
    alloc: Global,
    code: &MachineCode,
    entered: &mut Entered,
    routine: &RoutineCode,
) -> Result<bool, NoMemory>
    requires { e.IsKnown code.now entered.old }
    ensures known { OnOk result (e.IsKnown code.now entered.new) }
    ensures valid { IfOk result (λ b. IsTrue b ↔ v.IsValidRoutine code.now routine.now) }
{
    let count = routine.ops.len();
    if routine.kinds.len() != count || routine.lines.len() != count || !begins_empty(routine) {
        return Ok(false);
    }
    are_fine(alloc, code, entered, routine)
}

fn are_valid_routines(
    alloc: Global,
    code: &MachineCode,
    entered: &mut Entered,
) -> Result<bool, NoMemory>
    requires { e.IsKnown code.now entered.old }
    ensures { IfOk result (λ b. IsTrue b ↔ k.AreValidRoutines code.now) }
{
    'numbers: for k in 0..code.routines.len() {
        if !is_valid_routine(alloc, code, entered, &code.routines.as_slice()[k])? {
            return Ok(false);
        }
    }
    Ok(true)
}

/// Whether code is valid, by its targets as they were indexed.
pub fn is_valid(
    alloc: Global,
    code: &MachineCode,
    implementations: &HashMap<Implemented, u32>,
) -> Result<bool, NoMemory>
    requires { t.AreImplementations code.now.targets implementations.now }
    ensures { IfOk result (λ b. IsTrue b ↔ v.IsValid code.now) }
{
    if !all_within(code) {
        return Ok(false);
    }
    let mut entered = begin(alloc, code, implementations)?;
    are_valid_routines(alloc, code, &mut entered)
}
