//! Where an address lies in the process image (IEC 61131-3:2013, 6.5.5).

ghost use Rattle.std.specs.Prelude.{◌≡◌, ◌<◌, ◌≤◌, ◌^◌, IfOk};
ghost use Rattle.st_tree.specs.Address as text;
ghost use Rattle.st_meaning.specs.ProcessImage as words;

use plc_text::{NoMemory, Text};
use st_tree::{Area, Width, area_of, bit_of, index_of, width_of};

pub fn is_input(address: &Text) -> bool
    ensures { result ≡ words.same_area (text.area_of address.now) Area.Input }
{
    match area_of(address.as_str()) {
        Area::Input => true,
        Area::Output => false,
        Area::Memory => false,
    }
}

pub fn is_output(address: &Text) -> bool
    ensures { result ≡ words.same_area (text.area_of address.now) Area.Output }
{
    match area_of(address.as_str()) {
        Area::Output => true,
        Area::Input => false,
        Area::Memory => false,
    }
}

/// How many bytes it has; a bit lies in one.
pub fn bytes_in(width: Width) -> u32
    ensures value { result ≡ words.bytes_in width }
    ensures few { result ≤ 8 }
{
    match width {
        Width::Bit => 1,
        Width::Byte => 1,
        Width::Word => 2,
        Width::DoubleWord => 4,
        Width::LongWord => 8,
    }
}

/// How many bytes lie at an address.
pub fn size_of(address: &Text) -> u32
    ensures value { result ≡ words.size_of address.now }
    ensures few { result ≤ 8 }
{
    bytes_in(width_of(address.as_str()))
}

/// The first byte: addresses count in their own width. None has more than 32 bits.
pub fn first_byte(address: &Text) -> Result<u32, NoMemory>
    ensures { IfOk result (λ b. b ≡ words.first_byte address.now) }
{
    let Some(index) = index_of(address.as_str()) else {
        return Err(NoMemory);
    };
    let Some(first) = index.checked_mul(u64::from(size_of(address))) else {
        return Err(NoMemory);
    };
    match u32::try_from(first) {
        Ok(first) => Ok(first),
        Err(_) => Err(NoMemory),
    }
}

/// Two to the number of the bit. No byte has more than eight bits.
pub fn bit_weight(address: &Text) -> Result<u32, NoMemory>
    ensures { IfOk result (λ w. (w ≡ 2 ^ text.bit_of address.now) × (0 < w) × (w < 256)) }
{
    match bit_of(address.as_str()) {
        Some(0) => Ok(1),
        Some(1) => Ok(2),
        Some(2) => Ok(4),
        Some(3) => Ok(8),
        Some(4) => Ok(16),
        Some(5) => Ok(32),
        Some(6) => Ok(64),
        Some(7) => Ok(128),
        _ => Err(NoMemory),
    }
}
