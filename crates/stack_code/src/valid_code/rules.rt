//! The rule of validity for each instruction.

ghost use Rattle.std.specs.Prelude.{◌≡◌, ◌↔◌, ◌+◌, ◌<◌, ◌^◌, reverse, length, IsTrue, IfOk, OnOk};
ghost use Rattle.stack_code.specs.Validity as v;
ghost use Rattle.stack_code.specs.valid_code.Private.Checks as k;
ghost use Rattle.stack_code.specs.valid_code.Private.Entered as e;

use crate::valid_code::calls::{Common, is_call, with_routine};
use crate::valid_code::entered::{Entered, method_common, target_common};
use crate::valid_code::kinds::{is_forward, leads_on, same};
use crate::{Kind, MachineCode, Op, RoutineCode};
use plc_text::NoMemory;
use std::alloc::Global;

fn is_jump(
    alloc: Global,
    routine: &RoutineCode,
    at: usize,
    op: Op,
    kinds: &[Kind],
    to: usize,
) -> Result<bool, NoMemory>
    ensures { IfOk result (λ b. IsTrue b ↔ (v.Leads routine.now (v.after op (reverse kinds.now)) to × v.IsForward routine.now at to)) }
{
    if !leads_on(alloc, routine, op, kinds, to)? {
        return Ok(false);
    }
    Ok(is_forward(routine, at, to))
}

fn is_branch(
    alloc: Global,
    routine: &RoutineCode,
    at: usize,
    op: Op,
    kinds: &[Kind],
    to: usize,
) -> Result<bool, NoMemory>
    requires { at + 1 < 2 ^ 64 }
    ensures { IfOk result (λ b. IsTrue b ↔ (v.Leads routine.now (v.after op (reverse kinds.now)) to × v.Leads routine.now (v.after op (reverse kinds.now)) (at + 1) × v.IsForward routine.now at to)) }
{
    if !leads_on(alloc, routine, op, kinds, to)? {
        return Ok(false);
    }
    if !leads_on(alloc, routine, op, kinds, at + 1)? {
        return Ok(false);
    }
    Ok(is_forward(routine, at, to))
}

fn is_return(routine: &RoutineCode, n: usize, kinds: &[Kind]) -> bool
    ensures { IsTrue result ↔ ((reverse kinds.now ≡ reverse routine.now.rets) × (n ≡ length (reverse kinds.now))) }
{
    if !same(kinds, routine.rets.as_slice()) {
        return false;
    }
    n == kinds.len()
}

fn is_routine_call(
    alloc: Global,
    code: &MachineCode,
    routine: &RoutineCode,
    at: usize,
    k: u32,
    n: usize,
    kinds: &[Kind],
) -> Result<bool, NoMemory>
    requires { at + 1 < 2 ^ 64 }
    ensures { IfOk result (λ b. IsTrue b ↔ v.IsCall code.now routine.now at n (reverse kinds.now) (λ j. j ≡ k)) }
{
    let common = with_routine(code, Common::Nobody, k);
    is_call(alloc, code, routine, at, n, kinds, common)
}

fn is_method_call(
    alloc: Global,
    code: &MachineCode,
    entered: &mut Entered,
    routine: &RoutineCode,
    at: usize,
    target: u32,
    slot: u32,
    n: usize,
    kinds: &[Kind],
) -> Result<bool, NoMemory>
    requires at { at + 1 < 2 ^ 64 }
    requires known { e.IsKnown code.now entered.old }
    ensures known { OnOk result (e.IsKnown code.now entered.new) }
    ensures fine { IfOk result (λ b. IsTrue b ↔ v.IsCall code.now routine.now at n (reverse kinds.now) (v.MayEnterMethod code.now target slot)) }
{
    let common = method_common(code, entered, target, slot)?;
    is_call(alloc, code, routine, at, n, kinds, common)
}

fn is_interface_call(
    alloc: Global,
    code: &MachineCode,
    entered: &Entered,
    routine: &RoutineCode,
    at: usize,
    interface: u32,
    method: u32,
    n: usize,
    kinds: &[Kind],
) -> Result<bool, NoMemory>
    requires at { at + 1 < 2 ^ 64 }
    requires known { e.IsKnown code.now entered.now }
    ensures { IfOk result (λ b. IsTrue b ↔ v.IsCall code.now routine.now at n (reverse kinds.now) (v.MayEnterTarget code.now interface method)) }
{
    let common = target_common(entered, interface, method);
    is_call(alloc, code, routine, at, n, kinds, common)
}

/// Where a run goes behind an instruction.
pub enum Flow {
    /// To the next one.
    Next,
    Jump(u32),
    /// There or to the next one.
    Branch(u32),
    Return(u32),
    End,
    /// Into a routine, with so many argument words.
    Routine(u32, u32),
    /// Into the routine in a slot of the instance's class, which conforms to a target.
    Method(u32, u32, u32),
    /// Into the routine by which the instance's class implements a method of an interface.
    Interface(u32, u32, u32),
}

fn flow_of(op: Op) -> Flow
    ensures { result ≡ k.flow_of op }
{
    match op {
        Op::Jump(to) => Flow::Jump(to),
        Op::JumpF(to) => Flow::Branch(to),
        Op::Ret(n) => Flow::Return(n),
        Op::End => Flow::End,
        Op::Call(routine, n) => Flow::Routine(routine, n),
        Op::CallM(target, slot, n) => Flow::Method(target, slot, n),
        Op::CallI(interface, method, n) => Flow::Interface(interface, method, n),
        _ => Flow::Next,
    }
}

/// Whether the rule for the instruction holds with these kinds.
pub fn is_fine(
    alloc: Global,
    code: &MachineCode,
    entered: &mut Entered,
    routine: &RoutineCode,
    at: usize,
    op: Op,
    kinds: &[Kind],
) -> Result<bool, NoMemory>
    requires at { at + 1 < 2 ^ 64 }
    requires known { e.IsKnown code.now entered.old }
    ensures known { OnOk result (e.IsKnown code.now entered.new) }
    ensures fine { IfOk result (λ b. IsTrue b ↔ k.IsFineFlow code.now routine.now at op (reverse kinds.now) (k.flow_of op)) }
{
    match flow_of(op) {
        Flow::Next => leads_on(alloc, routine, op, kinds, at + 1),
        Flow::Jump(to) => is_jump(alloc, routine, at, op, kinds, to as usize),
        Flow::Branch(to) => is_branch(alloc, routine, at, op, kinds, to as usize),
        Flow::Return(n) => Ok(is_return(routine, n as usize, kinds)),
        Flow::End => Ok(kinds.is_empty()),
        Flow::Routine(k, n) => is_routine_call(alloc, code, routine, at, k, n as usize, kinds),
        Flow::Method(target, slot, n) => is_method_call(
            alloc, code, entered, routine, at, target, slot, n as usize, kinds,
        ),
        Flow::Interface(interface, method, n) => is_interface_call(
            alloc, code, entered, routine, at, interface, method, n as usize, kinds,
        ),
    }
}
