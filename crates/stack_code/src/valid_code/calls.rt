//! What a call finds and leaves, for each routine that it may enter.

ghost use Rattle.std.specs.Prelude.{◌≡◌, ◌↔◌, ◌++◌, ◌∷◌, ◌+◌, ◌<◌, ◌^◌, [], ℕ, List, length, reverse, IsTrue, IfOk};
ghost use Rattle.stack_code.specs.declared.op.Kind.TheVariants.{Addr};
ghost use Rattle.stack_code.specs.Validity.{IsCall};
ghost use Rattle.stack_code.specs.valid_code.Private.Calls as c;

use crate::valid_code::kinds::{is_list_at, same};
use crate::{Kind, MachineCode, RoutineCode};
use plc_text::{Items, NoMemory};
use std::alloc::Global;

/// What the routines that a call may enter have in common.
#[derive(Clone, Copy)]
pub enum Common {
    /// There is none.
    Nobody,
    /// All have the signature of this one.
    Like(u32),
    /// Two have different signatures.
    Mixed,
}

fn has_same_signature(a: &RoutineCode, b: &RoutineCode) -> bool
    ensures { IsTrue result ↔ c.SameSignature a.now b.now }
{
    same(a.args.as_slice(), b.args.as_slice()) && same(a.rets.as_slice(), b.rets.as_slice())
}

/// The same with one routine more.
pub fn with_routine(code: &MachineCode, common: Common, k: u32) -> Common
    ensures { (ks : List ℕ) → c.Shares code.now ks common → c.Shares code.now (ks ++ k ∷ []) result }
{
    let Some(routine) = code.routines.get(k as usize) else {
        return common;
    };
    match common {
        Common::Nobody => Common::Like(k),
        Common::Like(j) => match code.routines.get(j as usize) {
            Some(other) => {
                if has_same_signature(routine, other) {
                    common
                } else {
                    Common::Mixed
                }
            }
            None => common,
        },
        Common::Mixed => common,
    }
}

/// The routine in the slot of the class.
pub fn in_slot(code: &MachineCode, class: u32, slot: u32) -> Option<u32>
    ensures { c.in_slot_of code.now class slot ≡ result }
{
    let slots = code.slots.get(class as usize)?;
    *slots.get(slot as usize)?
}

/// The same with the routine in the slot of one class more.
fn with_method(code: &MachineCode, common: Common, class: u32, slot: u32) -> Common
    ensures { (ks : List ℕ) → c.Shares code.now ks common → c.Shares code.now (ks ++ c.with_some (c.in_slot_of code.now class slot) []) result }
{
    match in_slot(code, class, slot) {
        Some(k) => with_routine(code, common, k),
        None => common,
    }
}

/// What the routines in a slot of these classes have in common.
pub fn common_method(code: &MachineCode, classes: &[u32], slot: u32) -> Common
    ensures { c.Shares code.now (c.methods_of code.now classes.now slot) result }
{
    let mut common = Common::Nobody;
    'classes: for class in classes {
        common = with_method(code, common, *class, slot);
    }
    common
}

/// Whether the arguments are those of the routine, and its results on what is below lead on.
fn enters(
    alloc: Global,
    routine: &RoutineCode,
    at: usize,
    below: &[Kind],
    args: &[Kind],
    callee: &RoutineCode,
) -> Result<bool, NoMemory>
    requires { at + 1 < 2 ^ 64 }
    ensures { IfOk result (λ b. IsTrue b ↔ c.Enters routine.now at below.now args.now callee.now) }
{
    if !same(args, callee.args.as_slice()) {
        return Ok(false);
    }
    let mut left = Items::from_slice(alloc, below)?;
    left.append(Items::from_slice(alloc, callee.rets.as_slice())?)?;
    Ok(is_list_at(routine, at + 1, left.as_slice()))
}

/// Whether a call finds these arguments above an address, and leaves what it should, by what the routines that it may
/// enter have in common.
fn is_call_of(
    alloc: Global,
    code: &MachineCode,
    routine: &RoutineCode,
    at: usize,
    below: &[Kind],
    args: &[Kind],
    common: Common,
) -> Result<bool, NoMemory>
    requires { at + 1 < 2 ^ 64 }
    ensures { IfOk result (λ b. (ks : List ℕ) → c.Shares code.now ks common → (IsTrue b ↔ IsCall code.now routine.now at (length args.now) (reverse (below.now ++ Addr ∷ args.now)) (λ k. c.IsAmong k ks))) }
{
    match common {
        Common::Nobody => Ok(true),
        Common::Mixed => Ok(false),
        Common::Like(k) => match code.routines.get(k as usize) {
            Some(callee) => enters(alloc, routine, at, below, args, callee),
            None => Ok(false),
        },
    }
}

/// Whether a call with n argument words finds and leaves what it should.
pub fn is_call(
    alloc: Global,
    code: &MachineCode,
    routine: &RoutineCode,
    at: usize,
    n: usize,
    kinds: &[Kind],
    common: Common,
) -> Result<bool, NoMemory>
    requires { at + 1 < 2 ^ 64 }
    ensures { IfOk result (λ b. (ks : List ℕ) → c.Shares code.now ks common → (IsTrue b ↔ IsCall code.now routine.now at n (reverse kinds.now) (λ k. c.IsAmong k ks))) }
{
    if n >= kinds.len() {
        return Ok(false);
    }
    let (below, above) = kinds.split_at(kinds.len() - 1 - n);
    let Some((top, args)) = above.split_first() else {
        return Ok(false);
    };
    match *top {
        Kind::Num => Ok(false),
        Kind::Addr => is_call_of(alloc, code, routine, at, below, args, common),
    }
}
