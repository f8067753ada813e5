//! The operators on bits.

ghost use Rattle.std.specs.Prelude.{◌≡◌, ℕ, ◌<◌, ◌&&◌, ◌||◌, not as not_bit};
ghost use Rattle.st_types.specs.Range.{Fits};
ghost use Rattle.plc_num.specs.Bits.{HasBits, bit, exclusive_or, conjunction, disjunction, exclusive_disjunction, complement};

use crate::wrapping::wrap;
use st_types::Elem;

/// The bits that both numbers have.
fn both(a: i128, b: i128) -> i128
    ensures { (k : ℕ) → k < 128 → bit result k ≡ (bit a k && bit b k) }
{
    a & b
}

/// The bits that one of the numbers has, or both.
fn either(a: i128, b: i128) -> i128
    ensures { (k : ℕ) → k < 128 → bit result k ≡ (bit a k || bit b k) }
{
    a | b
}

/// The bits that one of the numbers has, but not both.
fn one(a: i128, b: i128) -> i128
    ensures { (k : ℕ) → k < 128 → bit result k ≡ exclusive_or (bit a k) (bit b k) }
{
    a ^ b
}

/// The bits that the number has not.
fn opposite(a: i128) -> i128
    ensures { (k : ℕ) → k < 128 → bit result k ≡ not_bit (bit a k) }
{
    !a
}

/// The bits that both have.
#[inline]
pub fn and(e: Elem, a: i128, b: i128) -> i128
    requires left { Fits e a }
    requires right { Fits e b }
    ensures bits { HasBits e (λ k. bit a k && bit b k) result }
    ensures value { result ≡ conjunction e a b }
{
    wrap(e, both(a, b))
}

/// The bits that one of them has, or both.
#[inline]
pub fn or(e: Elem, a: i128, b: i128) -> i128
    requires left { Fits e a }
    requires right { Fits e b }
    ensures bits { HasBits e (λ k. bit a k || bit b k) result }
    ensures value { result ≡ disjunction e a b }
{
    wrap(e, either(a, b))
}

/// The bits that one of them has, but not both.
#[inline]
pub fn xor(e: Elem, a: i128, b: i128) -> i128
    requires left { Fits e a }
    requires right { Fits e b }
    ensures bits { HasBits e (λ k. exclusive_or (bit a k) (bit b k)) result }
    ensures value { result ≡ exclusive_disjunction e a b }
{
    wrap(e, one(a, b))
}

/// The bits within the kind's width that it has not.
#[inline]
pub fn not(e: Elem, a: i128) -> i128
    requires { Fits e a }
    ensures bits { HasBits e (λ k. not_bit (bit a k)) result }
    ensures value { result ≡ complement e a }
{
    wrap(e, opposite(a))
}
