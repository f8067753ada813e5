//! Numbers wrapped to a kind.

ghost use Rattle.std.specs.Prelude.{◌≡◌, ◌^◌, pos};
ghost use Rattle.st_types.specs.Elem.{bits};
ghost use Rattle.plc_num.specs.Wrapping.{Wraps, wrapped};

use st_types::{Elem, fits, highest};

/// How many values the kind has.
#[inline]
fn count(e: Elem) -> i128
    ensures { result ≡ pos (2 ^ bits e) }
{
    match e {
        Elem::Bool => 2,
        Elem::Sint | Elem::Usint | Elem::Byte => 0x100,
        Elem::Int | Elem::Uint | Elem::Word => 0x1_0000,
        Elem::Dint | Elem::Udint | Elem::Dword | Elem::Time => 0x1_0000_0000,
        Elem::Lint | Elem::Ulint | Elem::Lword => 0x1_0000_0000_0000_0000,
    }
}

/// The value of the kind that differs from `v` by whole turns.
#[inline]
fn turned(e: Elem, v: i128) -> i128
    ensures { Wraps e v result }
{
    if fits(e, v) {
        return v;
    }
    let rest = v.rem_euclid(count(e));
    if rest <= highest(e) {
        rest
    } else {
        rest - count(e)
    }
}

/// The one value of the kind that differs from `v` by a multiple of two to the kind's width.
#[inline]
pub fn wrap(e: Elem, v: i128) -> i128
    ensures wraps { Wraps e v result }
    ensures value { result ≡ wrapped e v }
{
    turned(e, v)
}
