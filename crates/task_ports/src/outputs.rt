//! Outputs of a cycle, from images.

ghost use Rattle.std.specs.Prelude.{◌≡◌, ◌+◌, ◌*◌, ◌<◌, ◌≤◌, ◌^◌, nat_eq, pos, unsigned_abs, if◌then◌else◌, ℕ, length};
ghost use Rattle.std.specs.Int.{int_rem_euclid};
ghost use Rattle.st_types.specs.Elem as kinds;
ghost use Rattle.st_meaning.specs.ProcessImage as words;
ghost use Rattle.undo_image.specs.Undoable.{bytes_in, committed_in};
ghost use Rattle.task_ports.specs.Ports.{port_number, port_share, collected_byte, collected, HasRoom, PortFits, PortsFit, EndsWithin};
ghost use Rattle.task_ports.specs.Private.Sums.{part_share, Adds, HasSpace};

use crate::ports::Port;
use cycle_journal::Outputs;
use process_image::bytes_in;
use st_tree::Width;
use undo_image::UndoRegions;

/// The lowest bits of a number in two's complement, as many as an address has.
#[inline]
fn low_bits(width: Width, z: i128) -> u64
    ensures { pos result ≡ int_rem_euclid z (pos (256 ^ words.bytes_in width)) }
{
    match width {
        Width::Bit => (z.cast_unsigned() % 0x100) as u64,
        Width::Byte => (z.cast_unsigned() % 0x100) as u64,
        Width::Word => (z.cast_unsigned() % 0x1_0000) as u64,
        Width::DoubleWord => (z.cast_unsigned() % 0x1_0000_0000) as u64,
        Width::LongWord => (z.cast_unsigned() % 0x1_0000_0000_0000_0000) as u64,
    }
}

/// The number of an output.
fn number_of(x: &Port, regions: &UndoRegions) -> i128
    requires { HasRoom (committed_in regions.now) x.now.region (x.now.offset + kinds.bytes x.now.elem) }
    ensures { result ≡ port_number (bytes_in regions.now) x.now }
{
    match regions.at(x.region) {
        Some(image) => {
            image.keeps_length();
            image.read(x.elem, x.offset)
        }
        None => unreachable!(),
    }
}

/// Adds the bytes of a number, the low one first.
fn add_bytes(bytes: &mut [u8], first: u32, count: u32, n: u64)
    requires few { length bytes.old ≤ 256 }
    requires end { first + count ≤ length bytes.old }
    requires space { HasSpace bytes.old (part_share first count n) }
    ensures { Adds bytes.old bytes.new (part_share first count n) }
{
    let mut left = n;
    'bytes: for k in 0..count {
        bytes[(first + k) as usize] += (left % 256) as u8;
        left /= 256;
    }
}

/// What a single bit puts into its byte.
fn bit_number(x: &Port, z: &i128) -> u8
    requires { unsigned_abs z.now * x.now.weight < 256 }
    ensures { result ≡ unsigned_abs z.now * x.now.weight }
{
    let n = z.unsigned_abs() * u128::from(x.weight);
    n as u8
}

/// Adds a single bit.
fn add_bit(bytes: &mut [u8], x: &Port, z: &i128)
    requires end { x.now.first < length bytes.old }
    requires space { HasSpace bytes.old (λ b. if nat_eq b x.now.first then unsigned_abs z.now * x.now.weight else 0) }
    ensures { Adds bytes.old bytes.new (λ b. if nat_eq b x.now.first then unsigned_abs z.now * x.now.weight else 0) }
{
    bytes[x.first as usize] += bit_number(x, z);
}

/// Adds an output.
fn add_output(bytes: &mut [u8], x: &Port, z: &i128)
    requires few { length bytes.old ≤ 256 }
    requires end { x.now.first + words.bytes_in x.now.width ≤ length bytes.old }
    requires space { HasSpace bytes.old (port_share x.now z.now) }
    ensures { Adds bytes.old bytes.new (port_share x.now z.now) }
{
    match x.width {
        Width::Bit => add_bit(bytes, x, z),
        Width::Byte => add_bytes(bytes, x.first, 1, low_bits(Width::Byte, *z)),
        Width::Word => add_bytes(bytes, x.first, 2, low_bits(Width::Word, *z)),
        Width::DoubleWord => add_bytes(bytes, x.first, 4, low_bits(Width::DoubleWord, *z)),
        Width::LongWord => add_bytes(bytes, x.first, 8, low_bits(Width::LongWord, *z)),
    }
}

/// Adds an output of these images.
fn add_shown(bytes: &mut [u8], x: &Port, regions: &UndoRegions)
    requires fits { PortFits (committed_in regions.now) x.now }
    requires few { length bytes.old ≤ 256 }
    requires end { x.now.first + words.bytes_in x.now.width ≤ length bytes.old }
    requires space { HasSpace bytes.old (port_share x.now (port_number (bytes_in regions.now) x.now)) }
    ensures { Adds bytes.old bytes.new (port_share x.now (port_number (bytes_in regions.now) x.now)) }
{
    let z = number_of(x, regions);
    add_output(bytes, x, &z);
}

/// The first bytes of outputs, up to an end behind which none of them lies. There are 256 bytes at most, and no two outputs share a bit.
pub fn collect(outputs: &[Port], end: u32, regions: &UndoRegions) -> Outputs
    requires fits { PortsFit (committed_in regions.now) outputs.now }
    requires few { end ≤ 256 }
    requires ends { EndsWithin end outputs.now }
    requires bytes { (b : ℕ) → collected_byte outputs.now (bytes_in regions.now) b < 256 }
    ensures { result ≡ collected outputs.now end (bytes_in regions.now) }
{
    let mut bytes = [0; 256];
    let mut left = outputs;
    'ports: while let Some((x, behind)) = left.split_first() {
        add_shown(&mut bytes, x, regions);
        left = behind;
    }
    Outputs::from_slice(&bytes[..end as usize])
}
