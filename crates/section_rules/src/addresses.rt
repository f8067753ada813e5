//! Addresses of variables.

ghost use Rattle.std.specs.Prelude.{◌≡◌, ◌≤◌, nat_eq};
ghost use Rattle.st_types.specs.Elem as elements;
ghost use Rattle.st_rules.specs.Faults.{least};
ghost use Rattle.st_unit_rules.specs.VariableRules as rules;
ghost use Rattle.section_rules.specs.Addresses.{address_at};

use plc_text::{Code, Text};
use st_rules::{earlier, when};
use st_tree::{Area, Width, area_of, bit_of, index_of, width_of};
use st_types::{Elem, StType};

fn width_bytes(width: Width) -> u64
    ensures is { result ≡ rules.width_bytes width }
    ensures some { 1 ≤ result }
    ensures few { result ≤ 8 }
{
    match width {
        Width::Bit => 1,
        Width::Byte => 1,
        Width::Word => 2,
        Width::DoubleWord => 4,
        Width::LongWord => 8,
    }
}

fn width_bits(width: Width) -> u32
    ensures { result ≡ rules.width_bits width }
{
    match width {
        Width::Bit => 1,
        Width::Byte => 8,
        Width::Word => 16,
        Width::DoubleWord => 32,
        Width::LongWord => 64,
    }
}

fn image_bytes(area: Area) -> u64
    ensures is { result ≡ rules.image_bytes area }
    ensures few { result ≤ 4_096 }
{
    match area {
        Area::Input => 256,
        Area::Output => 256,
        Area::Memory => 4096,
    }
}

fn has_bits(kind: Elem, bits: u32) -> bool
    ensures { result ≡ nat_eq (elements.bits kind) bits }
{
    kind.bits() == bits
}

fn is_elementary_of_width(bits: u32, kind: &Option<StType>) -> bool
    ensures { result ≡ rules.is_elementary_of_width bits kind.now }
{
    match kind {
        Some(kind) => match kind {
            StType::Elementary(e) => has_bits(*e, bits),
            _ => false,
        },
        None => true,
    }
}

/// E14 where the type at an address is not elementary or has another width.
fn another_width(line: u32, text: &str, kind: &Option<StType>) -> Option<(Code, u32)>
    ensures { result ≡ least (rules.address_of_another_width line text.now kind.now) }
{
    let suits = is_elementary_of_width(width_bits(width_of(text)), kind);
    when(!suits, Code::E14, line)
}

fn has_bit_above_seven(text: &str) -> bool
    ensures { result ≡ rules.has_bit_above_seven text.now }
{
    match bit_of(text) {
        Some(bit) => bit > 7,
        None => true,
    }
}

#[tactic(auto, using(crate::proofs::FarLaws::far))]
fn passes_the_image(text: &str) -> bool
    ensures { result ≡ rules.passes_the_image text.now }
{
    let bytes = width_bytes(width_of(text));
    let limit = image_bytes(area_of(text));
    match index_of(text) {
        Some(index) => index >= 4096 || index * bytes + bytes > limit,
        None => true,
    }
}

/// The rules of an address that is there.
#[tactic(auto, using(crate::proofs::Joined::four_joined))]
fn fault_at(line: u32, may: bool, kind: &Option<StType>, text: &str) -> Option<(Code, u32)>
    ensures { result ≡ least (address_at line may kind.now text.now) }
{
    let place = when(!may, Code::E14, line);
    let width = another_width(line, text, kind);
    let bit = when(has_bit_above_seven(text), Code::E14, line);
    let past = when(passes_the_image(text), Code::E14, line);
    earlier(earlier(earlier(place, width), bit), past)
}

/// E14 where an address stands that may not, its type has another width, its bit is above 7, or it ends behind its image.
pub fn address_fault(
    line: u32,
    may: bool,
    kind: &Option<StType>,
    address: &Option<Text>,
) -> Option<(Code, u32)>
    ensures { result ≡ least (rules.address_faults line may kind.now address.now) }
{
    match address {
        Some(text) => fault_at(line, may, kind, text.as_str()),
        None => None,
    }
}
