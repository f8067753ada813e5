//! Values and their bytes, the low one first.

ghost use Rattle.std.specs.Prelude.{◌≡◌, ◌+◌, ◌^◌, ◌≤◌, pos, length, slice_range};
ghost use Rattle.std.specs.Int.{int_rem_euclid};
ghost use Rattle.st_types.specs.Elem as kinds;
ghost use Rattle.mem_image.specs.Image.{low_first, value_at};

use st_types::Elem;

/// The value of the kind from the place on.
#[inline]
pub fn value(bytes: &[u8], e: Elem, at: usize) -> i128
    requires { at + kinds.bytes e ≤ length bytes.now }
    ensures { result ≡ value_at e bytes.now at }
{
    match e {
        Elem::Bool => (word_1(bytes, at) % 2) as i128,
        Elem::Sint => word_1(bytes, at).cast_signed() as i128,
        Elem::Int => word_2(bytes, at).cast_signed() as i128,
        Elem::Dint => word_4(bytes, at).cast_signed() as i128,
        Elem::Lint => word_8(bytes, at).cast_signed() as i128,
        Elem::Usint | Elem::Byte => word_1(bytes, at) as i128,
        Elem::Uint | Elem::Word => word_2(bytes, at) as i128,
        Elem::Udint | Elem::Dword | Elem::Time => word_4(bytes, at) as i128,
        Elem::Ulint | Elem::Lword => word_8(bytes, at) as i128,
    }
}

/// The number in the byte.
#[inline]
pub fn word_1(bytes: &[u8], at: usize) -> u8
    requires { at + 1 ≤ length bytes.now }
    ensures { result ≡ low_first (slice_range bytes.now at (at + 1)) }
{
    bytes[at]
}

/// The number in the two bytes, the low one first.
#[inline]
pub fn word_2(bytes: &[u8], at: usize) -> u16
    requires { at + 2 ≤ length bytes.now }
    ensures { result ≡ low_first (slice_range bytes.now at (at + 2)) }
{
    u16::from_le_bytes([bytes[at], bytes[at + 1]])
}

/// The number in the four bytes, the low one first.
#[inline]
pub fn word_4(bytes: &[u8], at: usize) -> u32
    requires { at + 4 ≤ length bytes.now }
    ensures { result ≡ low_first (slice_range bytes.now at (at + 4)) }
{
    u32::from_le_bytes([bytes[at], bytes[at + 1], bytes[at + 2], bytes[at + 3]])
}

/// The number in the eight bytes, the low one first.
#[inline]
pub fn word_8(bytes: &[u8], at: usize) -> u64
    requires { at + 8 ≤ length bytes.now }
    ensures { result ≡ low_first (slice_range bytes.now at (at + 8)) }
{
    u64::from_le_bytes([
        bytes[at],
        bytes[at + 1],
        bytes[at + 2],
        bytes[at + 3],
        bytes[at + 4],
        bytes[at + 5],
        bytes[at + 6],
        bytes[at + 7],
    ])
}

/// The lowest 8 bits in two's complement.
#[inline]
pub fn low_1(v: i128) -> u8
    ensures { pos result ≡ int_rem_euclid v (pos (2 ^ 8)) }
{
    (v.cast_unsigned() % 0x100) as u8
}

/// The lowest 16 bits in two's complement.
#[inline]
pub fn low_2(v: i128) -> u16
    ensures { pos result ≡ int_rem_euclid v (pos (2 ^ 16)) }
{
    (v.cast_unsigned() % 0x1_0000) as u16
}

/// The lowest 32 bits in two's complement.
#[inline]
pub fn low_4(v: i128) -> u32
    ensures { pos result ≡ int_rem_euclid v (pos (2 ^ 32)) }
{
    (v.cast_unsigned() % 0x1_0000_0000) as u32
}

/// The lowest 64 bits in two's complement.
#[inline]
pub fn low_8(v: i128) -> u64
    ensures { pos result ≡ int_rem_euclid v (pos (2 ^ 64)) }
{
    (v.cast_unsigned() % 0x1_0000_0000_0000_0000) as u64
}
