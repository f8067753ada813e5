//! Arithmetic on numbers of any size. The operations of the kinds ask for values of the kind; whole turns change no sum, difference or
//! bit, so operands are wrapped first.

ghost use Rattle.std.specs.Prelude.{◌≡◌, ◌≢◌, pos};
ghost use Rattle.plc_num.specs.Arithmetic as numbers;
ghost use Rattle.plc_num.specs.Bits as bits;

use crate::arithmetic::{add, sub};
use crate::bits::{and, not, or, xor};
use crate::wrapping::wrap;
use st_types::Elem;

/// The sum, wrapped.
pub fn sum(e: Elem, a: i128, b: i128) -> i128
    ensures { result ≡ numbers.sum e a b }
{
    add(e, wrap(e, a), wrap(e, b))
}

/// The difference, wrapped.
pub fn difference(e: Elem, a: i128, b: i128) -> i128
    ensures { result ≡ numbers.difference e a b }
{
    sub(e, wrap(e, a), wrap(e, b))
}

/// The product, wrapped; at 128 bits first, which is a whole number of turns of each width.
pub fn product(e: Elem, a: i128, b: i128) -> i128
    ensures { result ≡ numbers.product e a b }
{
    wrap(e, a.wrapping_mul(b))
}

/// The quotient toward zero, wrapped. Its divisors 1 and -1 stand apart, since one quotient by -1 has more than 128 bits.
pub fn quotient(e: Elem, a: i128, b: i128) -> i128
    requires { b ≢ pos 0 }
    ensures { result ≡ numbers.quotient e a b }
{
    if b == 1 {
        return wrap(e, a);
    }
    if b == -1 {
        return difference(e, 0, a);
    }
    wrap(e, a / b)
}

/// What the quotient leaves, wrapped.
pub fn remainder(e: Elem, a: i128, b: i128) -> i128
    requires { b ≢ pos 0 }
    ensures { result ≡ numbers.remainder e a b }
{
    if b == -1 {
        return wrap(e, 0);
    }
    wrap(e, a % b)
}

/// The bits that both have.
pub fn conjunction(e: Elem, a: i128, b: i128) -> i128
    ensures { result ≡ bits.conjunction e a b }
{
    and(e, wrap(e, a), wrap(e, b))
}

/// The bits that one has, or both.
pub fn disjunction(e: Elem, a: i128, b: i128) -> i128
    ensures { result ≡ bits.disjunction e a b }
{
    or(e, wrap(e, a), wrap(e, b))
}

/// The bits that one has, but not both.
pub fn exclusive_disjunction(e: Elem, a: i128, b: i128) -> i128
    ensures { result ≡ bits.exclusive_disjunction e a b }
{
    xor(e, wrap(e, a), wrap(e, b))
}

/// The bits that the number has not.
pub fn complement(e: Elem, a: i128) -> i128
    ensures { result ≡ bits.complement e a }
{
    not(e, wrap(e, a))
}
