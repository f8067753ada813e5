//! Direct addresses (IEC 61131-3:2013, 6.5.5).

ghost use Rattle.std.specs.Prelude.{◌≡◌, ◌<◌, ◌≤◌, ◌^◌, length};
ghost use Rattle.std.specs.List.{prefix_len};
ghost use Rattle.std.specs.Option.{SomeIff};
ghost use Rattle.st_tree.specs.Address as address;

use crate::number::digits_value;
use plc_text::{is_digit, opens};

/// The image that an address lies in.
#[derive(Clone, Copy, Debug, PartialEq, Eq)]
pub enum Area {
    /// `%I`
    Input,
    /// `%Q`
    Output,
    /// `%M`
    Memory,
}

/// How much lies at an address.
#[derive(Clone, Copy, Debug, PartialEq, Eq)]
pub enum Width {
    /// `X`, which may be left out.
    Bit,
    /// `B`
    Byte,
    /// `W`, two bytes.
    Word,
    /// `D`, four bytes.
    DoubleWord,
    /// `L`, eight bytes.
    LongWord,
}

/// The image that the address lies in.
pub fn area_of(text: &str) -> Area
    ensures { result ≡ address.area_of text.now }
{
    if opens(text.as_bytes(), b"%I") {
        Area::Input
    } else if opens(text.as_bytes(), b"%Q") {
        Area::Output
    } else {
        Area::Memory
    }
}

/// What stands behind the area.
fn behind_area(text: &[u8]) -> &[u8]
    ensures { result.now ≡ address.behind_area text.now }
{
    &text[text.len().min(2)..]
}

/// How much lies at the address: a single bit where no width is written.
pub fn width_of(text: &str) -> Width
    ensures { result ≡ address.width_of text.now }
{
    let behind = behind_area(text.as_bytes());
    if opens(behind, b"B") {
        Width::Byte
    } else if opens(behind, b"W") {
        Width::Word
    } else if opens(behind, b"D") {
        Width::DoubleWord
    } else if opens(behind, b"L") {
        Width::LongWord
    } else {
        Width::Bit
    }
}

/// The digits behind area and width, with the point.
fn location_of(text: &[u8]) -> &[u8]
    ensures { result.now ≡ address.location_of text.now }
{
    let behind = behind_area(text);
    if behind.is_empty() || is_digit(behind[0]) {
        behind
    } else {
        &behind[1..]
    }
}

/// How many bytes stand before the first point.
fn point_at(text: &[u8]) -> usize
    ensures value { result ≡ prefix_len address.is_no_point text.now }
    ensures within { result ≤ length text.now }
{
    for (i, byte) in text.iter().enumerate() {
        if *byte == b'.' {
            return i;
        }
    }
    text.len()
}

/// The first number of the address: which byte of a single bit, else which one of those as wide. Nothing where it takes
/// more than 64 bits.
pub fn index_of(text: &str) -> Option<u64>
    ensures { SomeIff result (address.index_of text.now < 2 ^ 64) (address.index_of text.now) }
{
    let location = location_of(text.as_bytes());
    digits_value(10, &location[..point_at(location)])
}

/// The number behind the point, 0 where there is none. Nothing where it takes more than 64 bits.
pub fn bit_of(text: &str) -> Option<u64>
    ensures { SomeIff result (address.bit_of text.now < 2 ^ 64) (address.bit_of text.now) }
{
    let location = location_of(text.as_bytes());
    let point = point_at(location);
    digits_value(10, &location[location.len().min(point + 1)..])
}
