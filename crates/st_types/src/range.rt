//! Which numbers are values of a kind.

ghost use Rattle.std.specs.Prelude.{◌≡◌, ◌↔◌, IsTrue};
ghost use Rattle.st_types.specs.Range as ranges;

use crate::elem::Elem;

/// The least value of the kind.
#[inline]
pub fn lowest(e: Elem) -> i128
    ensures { result ≡ ranges.lowest e }
{
    match e {
        Elem::Sint => -0x80,
        Elem::Int => -0x8000,
        Elem::Dint => -0x8000_0000,
        Elem::Lint => -0x8000_0000_0000_0000,
        _ => 0,
    }
}

/// The greatest value of the kind: 1 for BOOL, and for TIME that of an unsigned number of 32 bits.
#[inline]
pub fn highest(e: Elem) -> i128
    ensures { result ≡ ranges.highest e }
{
    match e {
        Elem::Bool => 1,
        Elem::Sint => 0x7f,
        Elem::Int => 0x7fff,
        Elem::Dint => 0x7fff_ffff,
        Elem::Lint => 0x7fff_ffff_ffff_ffff,
        Elem::Usint | Elem::Byte => 0xff,
        Elem::Uint | Elem::Word => 0xffff,
        Elem::Udint | Elem::Dword | Elem::Time => 0xffff_ffff,
        Elem::Ulint | Elem::Lword => 0xffff_ffff_ffff_ffff,
    }
}

/// Whether the number is a value of the kind.
#[inline]
pub fn fits(e: Elem, v: i128) -> bool
    ensures { IsTrue result ↔ ranges.Fits e v }
{
    lowest(e) <= v && v <= highest(e)
}
