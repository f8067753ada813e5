//! Sums, products and quotients, wrapped to a kind.

ghost use Rattle.std.specs.Prelude.{◌≡◌, ◌↔◌, pos, IsNone, IfSome};
ghost use Rattle.st_types.specs.Range.{Fits};
ghost use Rattle.plc_num.specs.Arithmetic.{sum, difference, product, quotient, remainder};

use crate::wrapping::wrap;
use st_types::Elem;

/// `a + b`, wrapped to the kind.
#[inline]
pub fn add(e: Elem, a: i128, b: i128) -> i128
    requires left { Fits e a }
    requires right { Fits e b }
    ensures { result ≡ sum e a b }
{
    wrap(e, a + b)
}

/// `a - b`, wrapped to the kind.
#[inline]
pub fn sub(e: Elem, a: i128, b: i128) -> i128
    requires left { Fits e a }
    requires right { Fits e b }
    ensures { result ≡ difference e a b }
{
    wrap(e, a - b)
}

/// `a * b`, wrapped to the kind.
#[inline]
pub fn mul(e: Elem, a: i128, b: i128) -> i128
    requires left { Fits e a }
    requires right { Fits e b }
    ensures { result ≡ product e a b }
{
    // A product of two ULINT has up to 128 bits. What wraps at 128 bits wraps at each width below.
    wrap(e, a.wrapping_mul(b))
}

/// `a / b` toward zero, wrapped to the kind. None where `b` is 0.
#[inline]
pub fn div(e: Elem, a: i128, b: i128) -> Option<i128>
    requires left { Fits e a }
    requires right { Fits e b }
    ensures none { IsNone result ↔ (b ≡ pos 0) }
    ensures some { IfSome result (λ q. q ≡ quotient e a b) }
{
    if b == 0 {
        return None;
    }
    Some(wrap(e, a / b))
}

/// `a MOD b`, which is `a - (a / b) * b` and has the sign of `a`. None where `b` is 0.
#[inline]
pub fn rem(e: Elem, a: i128, b: i128) -> Option<i128>
    requires left { Fits e a }
    requires right { Fits e b }
    ensures none { IsNone result ↔ (b ≡ pos 0) }
    ensures some { IfSome result (λ r. r ≡ remainder e a b) }
{
    if b == 0 {
        return None;
    }
    Some(wrap(e, a % b))
}
