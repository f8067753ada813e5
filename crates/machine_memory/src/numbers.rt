//! Numbers wrapped to a kind, without a test of their range, and what is made of them.

ghost use Rattle.std.specs.Prelude.{◌≡◌, ◌^◌, pos, not};
ghost use Rattle.std.specs.Ordering.{int_eq};
ghost use Rattle.std.specs.Int.{int_rem_euclid};
ghost use Rattle.st_types.specs.Range.{Fits};
ghost use Rattle.plc_num.specs.Wrapping.{wrapped};
ghost use Rattle.plc_num.specs.Arithmetic.{sum, difference, quotient, remainder};
ghost use Rattle.stack_code.specs.Steps.{fault_at};
ghost use Rattle.stack_code.specs.Machine as machine;
ghost use Rattle.machine_memory.specs.Answers.{settled};

use plc_num::{add, div, rem};
use plc_text::{Fault, FaultKind};
use st_types::Elem;
use stack_code::{Ending, Outcome};

/// The value of the kind that differs from the number by a multiple of two to the kind's width.
#[inline]
pub fn narrow(e: Elem, v: i128) -> i128
    ensures value { result ≡ wrapped e v }
    ensures fits { Fits e result }
{
    turned(e, v)
}

#[inline]
fn turned(e: Elem, v: i128) -> i128
    ensures { result ≡ wrapped e v }
{
    match e {
        Elem::Bool => (low_1(v) % 2) as i128,
        Elem::Sint => low_1(v).cast_signed() as i128,
        Elem::Int => low_2(v).cast_signed() as i128,
        Elem::Dint => low_4(v).cast_signed() as i128,
        Elem::Lint => low_8(v).cast_signed() as i128,
        Elem::Usint | Elem::Byte => low_1(v) as i128,
        Elem::Uint | Elem::Word => low_2(v) as i128,
        Elem::Udint | Elem::Dword | Elem::Time => low_4(v) as i128,
        Elem::Ulint | Elem::Lword => low_8(v) as i128,
    }
}

/// The sum of two numbers that are wrapped to the kind first.
#[inline]
pub fn sum_of(e: Elem, a: i128, b: i128) -> i128
    ensures { result ≡ sum e (wrapped e a) (wrapped e b) }
{
    // What wraps at 128 bits wraps at each width below.
    narrow(e, a.wrapping_add(b))
}

/// The difference of two numbers that are wrapped to the kind first.
#[inline]
pub fn difference_of(e: Elem, a: i128, b: i128) -> i128
    ensures { result ≡ difference e (wrapped e a) (wrapped e b) }
{
    narrow(e, a.wrapping_sub(b))
}

/// The lowest 8 bits in two's complement.
#[inline]
fn low_1(v: i128) -> u8
    ensures { pos result ≡ int_rem_euclid v (pos (2 ^ 8)) }
{
    (v.cast_unsigned() % 0x100) as u8
}

/// The lowest 16 bits in two's complement.
#[inline]
fn low_2(v: i128) -> u16
    ensures { pos result ≡ int_rem_euclid v (pos (2 ^ 16)) }
{
    (v.cast_unsigned() % 0x1_0000) as u16
}

/// The lowest 32 bits in two's complement.
#[inline]
fn low_4(v: i128) -> u32
    ensures { pos result ≡ int_rem_euclid v (pos (2 ^ 32)) }
{
    (v.cast_unsigned() % 0x1_0000_0000) as u32
}

/// The lowest 64 bits in two's complement.
#[inline]
fn low_8(v: i128) -> u64
    ensures { pos result ≡ int_rem_euclid v (pos (2 ^ 64)) }
{
    (v.cast_unsigned() % 0x1_0000_0000_0000_0000) as u64
}

/// The fault at the line.
pub fn fault(kind: FaultKind, line: u32) -> Ending
    ensures { result ≡ fault_at kind line }
{
    Ending::Ended(Outcome::Fault(Fault { kind, line }))
}

/// 1 for TRUE, and 0 for FALSE.
#[inline]
pub fn truth(holds: bool) -> i128
    ensures { result ≡ machine.truth holds }
{
    if holds { 1 } else { 0 }
}

/// The quotient of two numbers that are wrapped to the kind first; a fault Divide where the second is 0.
#[inline]
pub fn quotient_of(e: Elem, a: i128, b: i128, line: u32) -> Result<i128, Ending>
    ensures { machine.divided (wrapped e b) (quotient e (wrapped e a) (wrapped e b)) line ≡ settled result }
{
    let x = narrow(e, a);
    let y = narrow(e, b);
    if y == 0 {
        return Err(fault(FaultKind::Divide, line));
    }
    match div(e, x, y) {
        Some(result) => Ok(result),
        None => unreachable!(),
    }
}

/// What the quotient leaves; a fault Divide where the second is 0.
#[inline]
pub fn remainder_of(e: Elem, a: i128, b: i128, line: u32) -> Result<i128, Ending>
    ensures { machine.divided (wrapped e b) (remainder e (wrapped e a) (wrapped e b)) line ≡ settled result }
{
    let x = narrow(e, a);
    let y = narrow(e, b);
    if y == 0 {
        return Err(fault(FaultKind::Divide, line));
    }
    match rem(e, x, y) {
        Some(result) => Ok(result),
        None => unreachable!(),
    }
}

#[inline]
fn differ(a: i128, b: i128) -> bool
    ensures { result ≡ not (int_eq a b) }
{
    a != b
}

/// Whether the sum of two values has to be wrapped.
#[inline]
pub fn has_carry(e: Elem, a: i128, b: i128) -> bool
    requires left { Fits e a }
    requires right { Fits e b }
    ensures { result ≡ machine.has_carry e a b }
{
    differ(add(e, a, b), a + b)
}
