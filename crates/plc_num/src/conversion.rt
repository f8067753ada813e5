//! Conversions between kinds, and the order of numbers.

ghost use Rattle.std.specs.Prelude.{◌≡◌};
ghost use Rattle.plc_num.specs.Conversion.{converted, Compares};

use crate::wrapping::wrap;
use st_types::Elem;
use std::cmp::Ordering;

/// The number as a value of the kind: wrapped to it, and for BOOL whether it is not zero.
#[inline]
pub fn convert(to: Elem, v: i128) -> i128
    ensures { result ≡ converted to v }
{
    match to {
        Elem::Bool => i128::from(v != 0),
        _ => wrap(to, v),
    }
}

/// The order of the two numbers.
#[inline]
pub fn compare(a: i128, b: i128) -> Ordering
    ensures { Compares a b result }
{
    a.cmp(&b)
}
