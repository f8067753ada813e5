//! Inputs of a cycle, in images.

ghost use Rattle.std.specs.Prelude.{◌≡◌, ◌+◌, ◌/◌, ◌%◌, ◌<◌, ◌^◌, pos};
ghost use Rattle.st_types.specs.Elem as kinds;
ghost use Rattle.st_types.specs.Range.{Fits};
ghost use Rattle.plc_num.specs.Wrapping.{wrapped};
ghost use Rattle.st_meaning.specs.ProcessImage as words;
ghost use Rattle.undo_image.specs.Undoable.{bytes_in, committed_in};
ghost use Rattle.task_ports.specs.Ports.{port_input, with_value, latched_one, latched, HasRoom, PortFits, PortsFit};

use crate::ports::Port;
use plc_num::wrap;
use process_image::{input_byte, input_number};
use st_tree::Width;
use st_types::Elem;
use undo_image::UndoRegions;

/// The number in so many bytes from one on, wrapped to a kind.
#[inline]
fn wrapped(input: &[u8], first: usize, width: Width, elem: Elem) -> i128
    requires { first < 2 ^ 32 }
    ensures { result ≡ wrapped elem (pos (words.input_number input.now first (words.bytes_in width))) }
{
    wrap(elem, i128::from(input_number(input, first, width)))
}

/// A bit of a byte, by two to its number.
#[inline]
fn bit_value(byte: u64, weight: u32) -> i128
    requires { 0 < weight }
    ensures { result ≡ pos (byte / weight % 2) }
{
    i128::from(byte / u64::from(weight) % 2)
}

/// The value of an input.
fn value_of(input: &[u8], x: &Port) -> i128
    requires { 0 < x.now.weight }
    ensures { result ≡ port_input input.now x.now }
{
    let first = x.first as usize;
    match x.width {
        Width::Bit => bit_value(input_byte(input, first), x.weight),
        Width::Byte => wrapped(input, first, Width::Byte, x.elem),
        Width::Word => wrapped(input, first, Width::Word, x.elem),
        Width::DoubleWord => wrapped(input, first, Width::DoubleWord, x.elem),
        Width::LongWord => wrapped(input, first, Width::LongWord, x.elem),
    }
}

/// Writes a value into a region that is there.
fn put_value(regions: &mut UndoRegions, region: u32, offset: u32, e: Elem, v: i128)
    requires fits { Fits e v }
    requires room { HasRoom (committed_in regions.old) region (offset + kinds.bytes e) }
    ensures bytes { bytes_in regions.new ≡ with_value (bytes_in regions.old) region offset e v }
    ensures committed { committed_in regions.new ≡ committed_in regions.old }
{
    match regions.at_mut(region) {
        Some(image) => {
            image.keeps_length();
            image.write(e, offset, v);
        }
        None => unreachable!(),
    }
}

/// An input takes its value.
fn latch_one(x: &Port, input: &[u8], regions: &mut UndoRegions)
    requires fits { PortFits (committed_in regions.old) x.now }
    ensures bytes { bytes_in regions.new ≡ latched_one input.now x.now (bytes_in regions.old) }
    ensures committed { committed_in regions.new ≡ committed_in regions.old }
{
    let v = value_of(input, x);
    put_value(regions, x.region, x.offset, x.elem, v);
}

/// Inputs take their values. Behind the bytes that are given stand zeros.
pub fn latch(inputs: &[Port], input: &[u8], regions: &mut UndoRegions)
    requires fits { PortsFit (committed_in regions.old) inputs.now }
    ensures bytes { bytes_in regions.new ≡ latched inputs.now input.now (bytes_in regions.old) }
    ensures committed { committed_in regions.new ≡ committed_in regions.old }
{
    let mut left = inputs;
    'ports: while let Some((x, behind)) = left.split_first() {
        latch_one(x, input, regions);
        left = behind;
    }
}
