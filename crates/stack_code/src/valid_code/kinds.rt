//! The kinds of operands that instructions find and leave.

ghost use Rattle.std.specs.Prelude.{◌↔◌, ◌≡◌, ◌∷◌, Some, IsTrue, reverse, IfOk, OnOk};
ghost use Rattle.stack_code.specs.Validity as v;
ghost use Rattle.stack_code.specs.valid_code.Private.Kinds.{kept};

use crate::{Kind, Op, RoutineCode};
use plc_text::{Items, NoMemory};
use std::alloc::Global;

/// Takes a kind from the top. False where there is another one or none.
fn pop(kinds: &mut Items<Kind>, kind: Kind) -> bool
    ensures { v.pop kind (reverse kinds.old) ≡ kept result (reverse kinds.new) }
{
    match kinds.pop() {
        None => false,
        Some(Kind::Num) => match kind {
            Kind::Num => true,
            Kind::Addr => false,
        },
        Some(Kind::Addr) => match kind {
            Kind::Num => false,
            Kind::Addr => true,
        },
    }
}

fn pop_any(kinds: &mut Items<Kind>) -> bool
    ensures { v.pop_any (reverse kinds.old) ≡ kept result (reverse kinds.new) }
{
    kinds.pop().is_some()
}

fn push(kinds: &mut Items<Kind>, kind: Kind) -> Result<(), NoMemory>
    ensures { OnOk result (reverse kinds.new ≡ kind ∷ reverse kinds.old) }
{
    kinds.push(kind)?;
    Ok(())
}

fn double(kinds: &mut Items<Kind>) -> Result<bool, NoMemory>
    ensures { IfOk result (λ ok. v.doubled (reverse kinds.old) ≡ kept ok (reverse kinds.new)) }
{
    let Some(top) = kinds.pop() else {
        return Ok(false);
    };
    push(kinds, top)?;
    push(kinds, top)?;
    Ok(true)
}

fn number_for_number(kinds: &mut Items<Kind>) -> Result<bool, NoMemory>
    ensures { IfOk result (λ ok. v.after_one (reverse kinds.old) ≡ kept ok (reverse kinds.new)) }
{
    if !pop(kinds, Kind::Num) {
        return Ok(false);
    }
    push(kinds, Kind::Num)?;
    Ok(true)
}

fn number_for_two(kinds: &mut Items<Kind>) -> Result<bool, NoMemory>
    ensures { IfOk result (λ ok. v.after_two (reverse kinds.old) ≡ kept ok (reverse kinds.new)) }
{
    if !pop(kinds, Kind::Num) {
        return Ok(false);
    }
    if !pop(kinds, Kind::Num) {
        return Ok(false);
    }
    push(kinds, Kind::Num)?;
    Ok(true)
}

fn address_for_address(kinds: &mut Items<Kind>) -> Result<bool, NoMemory>
    ensures { IfOk result (λ ok. v.after_address (reverse kinds.old) ≡ kept ok (reverse kinds.new)) }
{
    if !pop(kinds, Kind::Addr) {
        return Ok(false);
    }
    push(kinds, Kind::Addr)?;
    Ok(true)
}

/// Makes of the kinds what the instruction leaves. False where it does not find what it pops, and for calls, RET and
/// END, which have rules of their own.
fn apply(op: Op, kinds: &mut Items<Kind>) -> Result<bool, NoMemory>
    ensures { IfOk result (λ ok. v.after op (reverse kinds.old) ≡ kept ok (reverse kinds.new)) }
{
    match op {
        Op::Push(_) | Op::Now => {
            push(kinds, Kind::Num)?;
            Ok(true)
        }
        Op::Null | Op::Local(_) | Op::This(_) | Op::Region(_, _) => {
            push(kinds, Kind::Addr)?;
            Ok(true)
        }
        Op::Drop => Ok(pop_any(kinds)),
        Op::Dup => double(kinds),
        Op::Offset(_) | Op::Deref | Op::LoadRef | Op::Try(_) => address_for_address(kinds),
        Op::Index(_, _, _) => {
            if !pop(kinds, Kind::Num) {
                return Ok(false);
            }
            address_for_address(kinds)
        }
        Op::Load(_) => {
            if !pop(kinds, Kind::Addr) {
                return Ok(false);
            }
            push(kinds, Kind::Num)?;
            Ok(true)
        }
        Op::Store(_) => {
            if !pop(kinds, Kind::Addr) {
                return Ok(false);
            }
            Ok(pop(kinds, Kind::Num))
        }
        Op::StoreRef | Op::Copy(_) => {
            if !pop(kinds, Kind::Addr) {
                return Ok(false);
            }
            Ok(pop(kinds, Kind::Addr))
        }
        Op::Add(_) | Op::Sub(_) | Op::Mul(_) | Op::Div(_) | Op::Mod(_) => number_for_two(kinds),
        Op::And(_) | Op::Or(_) | Op::Xor(_) => number_for_two(kinds),
        Op::Eq | Op::Ne | Op::Lt | Op::Le | Op::Gt | Op::Ge => number_for_two(kinds),
        Op::Neg(_) | Op::Not(_) | Op::Conv(_, _) | Op::NoZero => number_for_number(kinds),
        Op::AddC(_) => {
            if !number_for_two(kinds)? {
                return Ok(false);
            }
            push(kinds, Kind::Num)?;
            Ok(true)
        }
        Op::Same => {
            if !pop(kinds, Kind::Addr) {
                return Ok(false);
            }
            if !pop(kinds, Kind::Addr) {
                return Ok(false);
            }
            push(kinds, Kind::Num)?;
            Ok(true)
        }
        Op::Jump(_) | Op::Tick => Ok(true),
        Op::JumpF(_) => Ok(pop(kinds, Kind::Num)),
        Op::Call(_, _) | Op::CallM(_, _, _) | Op::CallI(_, _, _) | Op::Ret(_) | Op::End => Ok(
            false,
        ),
    }
}

pub fn same(a: &[Kind], b: &[Kind]) -> bool
    ensures { IsTrue result ↔ (a.now ≡ b.now) }
{
    a == b
}

/// Whether the kinds are the list of the instruction.
pub fn is_list_at(routine: &RoutineCode, at: usize, kinds: &[Kind]) -> bool
    ensures { IsTrue result ↔ (v.kinds_at routine.now at ≡ Some (reverse kinds.now)) }
{
    match routine.kinds.get(at) {
        Some(Some(list)) => same(list.as_slice(), kinds),
        _ => false,
    }
}

/// Whether what the instruction leaves of the kinds leads to the one at the place.
pub fn leads_on(
    alloc: Global,
    routine: &RoutineCode,
    op: Op,
    kinds: &[Kind],
    to: usize,
) -> Result<bool, NoMemory>
    ensures { IfOk result (λ b. IsTrue b ↔ v.Leads routine.now (v.after op (reverse kinds.now)) to) }
{
    let mut left = Items::from_slice(alloc, kinds)?;
    if !apply(op, &mut left)? {
        return Ok(false);
    }
    Ok(is_list_at(routine, to, left.as_slice()))
}

/// Whether a jump may lead there: to a later instruction or to a TICK.
pub fn is_forward(routine: &RoutineCode, at: usize, to: usize) -> bool
    ensures { IsTrue result ↔ v.IsForward routine.now at to }
{
    if at < to {
        return true;
    }
    match routine.ops.get(to) {
        Some(Op::Tick) => true,
        _ => false,
    }
}
