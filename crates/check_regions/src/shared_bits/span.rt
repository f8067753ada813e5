//! Where the bits of an address stand among the marks.

ghost use Rattle.std.specs.Prelude.{◌≡◌, ◌≤◌, ◌+◌, ◌*◌, true, Some, IfSome};
ghost use Rattle.std.specs.Option.{SomeIff};
ghost use Rattle.st_tree.specs.Address as address;
ghost use Rattle.st_unit_rules.specs.Addresses.{bits_of};
ghost use Rattle.st_unit_rules.specs.VariableRules as rules;
ghost use Rattle.check_regions.specs.shared_bits.Private.Spans as spans;

use plc_text::Text;
use st_tree::{Area, Width, area_of, bit_of, index_of, width_of};

/// Marks in a row.
#[derive(Clone, Copy)]
pub struct Span {
    pub start: usize,
    pub width: usize,
}

fn width_bytes(width: Width) -> usize
    ensures is { result ≡ rules.width_bytes width }
    ensures some { 1 ≤ result }
    ensures few { result ≤ 8 }
{
    match width {
        Width::Bit => 1,
        Width::Byte => 1,
        Width::Word => 2,
        Width::DoubleWord => 4,
        Width::LongWord => 8,
    }
}

fn width_bits(width: Width) -> usize
    ensures is { result ≡ rules.width_bits width }
    ensures few { result ≤ 8 * rules.width_bytes width }
{
    match width {
        Width::Bit => 1,
        Width::Byte => 8,
        Width::Word => 16,
        Width::DoubleWord => 32,
        Width::LongWord => 64,
    }
}

fn image_bytes(area: Area) -> usize
    ensures is { result ≡ rules.image_bytes area }
    ensures few { result ≤ 4_096 }
{
    match area {
        Area::Input => 256,
        Area::Output => 256,
        Area::Memory => 4096,
    }
}

/// The first bit at the address in its image, if the address lies within that.
fn first_bit(text: &str) -> Option<usize>
    ensures first { SomeIff result (spans.lies_within text.now ≡ true) (spans.first_bit text.now) }
    ensures inside { IfSome result (λ first. first + 8 * rules.width_bytes (address.width_of text.now) ≤ 8 * rules.image_bytes (address.area_of text.now) + 7) }
{
    let index = index_of(text)?;
    let bit = bit_of(text)?;
    if bit > 7 {
        return None;
    }
    if index >= 4096 {
        return None;
    }
    let bytes = width_bytes(width_of(text));
    let start = index as usize * bytes;
    if start + bytes > image_bytes(area_of(text)) {
        return None;
    }
    Some(start * 8 + bit as usize)
}

/// The marks of an address of outputs or memory that lies within its image.
fn span_at(text: &str) -> Option<Span>
    ensures spans { spans.if_there result ≡ spans.spans_of (bits_of (Some text.now)) }
    ensures inside { IfSome result (λ s. s.start + s.width ≤ 34_832) }
{
    let first = first_bit(text)?;
    let width = width_bits(width_of(text));
    match area_of(text) {
        Area::Input => None,
        Area::Output => Some(Span {
            start: first,
            width,
        }),
        Area::Memory => Some(Span {
            start: 2056 + first,
            width,
        }),
    }
}

/// The marks of an address, if there is one.
pub fn span_of(address: &Option<Text>) -> Option<Span>
    ensures spans { spans.if_there result ≡ spans.spans_of (bits_of address.now) }
    ensures inside { IfSome result (λ s. s.start + s.width ≤ 34_832) }
{
    match address {
        Some(text) => span_at(text.as_str()),
        None => None,
    }
}
