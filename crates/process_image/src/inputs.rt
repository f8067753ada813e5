//! Inputs of a cycle.

ghost use Rattle.std.specs.Prelude.{◌≡◌, ◌-◌, ◌<◌, ◌^◌, IfOk, OnOk, is_some, pos};
ghost use Rattle.std.specs.Int.{bit_at};
ghost use Rattle.plc_num.specs.Wrapping.{wrapped};
ghost use Rattle.st_tree.specs.Address as text;
ghost use Rattle.st_values.specs.Value as plain;
ghost use Rattle.st_rules.specs.Chains.{is_among};
ghost use Rattle.st_meaning.specs.ProcessImage as words;
ghost use Rattle.run_state.specs.State.{base_of, spot_of, state_of};
ghost use Rattle.run_state.specs.Places.{spot_value};
ghost use Rattle.st_meaning.specs.State as run;
ghost use Rattle.value_trees.specs.Value.{value_of};
ghost use Rattle.process_image.specs.Located.{all_seen, seen};
ghost use Rattle.process_image.specs.Private.Inputs.{given_to, latched_one, with_store};

use crate::addresses::{bit_weight, first_byte, is_input};
use crate::located::Located;
use plc_num::wrap;
use plc_text::{NoMemory, Text};
use run_state::{RunState, Spot, put, value_of_spot};
use st_tree::{Width, width_of};
use st_types::Elem;
use std::alloc::Global;
use value_trees::{Value, copy_path};

/// A byte of the input; behind the bytes that are given stand zeros.
pub fn input_byte(input: &[u8], b: usize) -> u64
    ensures value { result ≡ words.input_byte input.now b }
    ensures few { result < 256 }
{
    match input.get(b) {
        Some(byte) => u64::from(*byte),
        None => 0,
    }
}

/// Two bytes from one on, the low one first.
#[tactic(auto, using(crate::proofs::ByteLaws::two_bytes))]
fn word(input: &[u8], b: usize) -> u64
    requires { b < 2 ^ 33 }
    ensures value { result ≡ words.input_number input.now b 2 }
    ensures few { result < 2 ^ 16 }
{
    input_byte(input, b) + 256 * input_byte(input, b + 1)
}

#[tactic(auto, using(crate::proofs::ByteLaws::four_bytes))]
fn double_word(input: &[u8], b: usize) -> u64
    requires { b < 2 ^ 33 - 2 }
    ensures value { result ≡ words.input_number input.now b 4 }
    ensures few { result < 2 ^ 32 }
{
    word(input, b) + 65_536 * word(input, b + 2)
}

#[tactic(auto, using(crate::proofs::ByteLaws::eight_bytes))]
fn long_word(input: &[u8], b: usize) -> u64
    requires { b < 2 ^ 33 - 6 }
    ensures value { result ≡ words.input_number input.now b 8 }
{
    double_word(input, b) + 4_294_967_296 * double_word(input, b + 4)
}

/// The number in so many bytes from one on; a bit lies in one.
pub fn input_number(input: &[u8], first: usize, width: Width) -> u64
    requires { first < 2 ^ 32 }
    ensures { result ≡ words.input_number input.now first (words.bytes_in width) }
{
    match width {
        Width::Bit => input_byte(input, first),
        Width::Byte => input_byte(input, first),
        Width::Word => word(input, first),
        Width::DoubleWord => double_word(input, first),
        Width::LongWord => long_word(input, first),
    }
}

/// The number, wrapped to a kind.
fn wrapped(input: &[u8], first: usize, width: Width, elem: Elem) -> i128
    requires { first < 2 ^ 32 }
    ensures { result ≡ wrapped elem (pos (words.input_number input.now first (words.bytes_in width))) }
{
    wrap(elem, i128::from(input_number(input, first, width)))
}

/// The bit of an address in a byte.
fn bit_value(byte: u64, address: &Text) -> Result<i128, NoMemory>
    ensures { IfOk result (λ z. z ≡ pos (bit_at byte (text.bit_of address.now))) }
{
    let weight = bit_weight(address)?;
    Ok(i128::from(byte / u64::from(weight) % 2))
}

/// The value of an input.
fn input_value(input: &[u8], x: &Located<'_>) -> Result<i128, NoMemory>
    ensures { IfOk result (λ z. z ≡ words.input_value input.now (seen x.now)) }
{
    let first = first_byte(x.address)? as usize;
    let width = width_of(x.address.as_str());
    match width {
        Width::Bit => bit_value(input_byte(input, first), x.address),
        Width::Byte => Ok(wrapped(input, first, Width::Byte, x.elem)),
        Width::Word => Ok(wrapped(input, first, Width::Word, x.elem)),
        Width::DoubleWord => Ok(wrapped(input, first, Width::DoubleWord, x.elem)),
        Width::LongWord => Ok(wrapped(input, first, Width::LongWord, x.elem)),
    }
}

#[tactic(auto, using(value_trees::specs::Value::value_views))]
fn number(z: i128) -> Value
    ensures { value_of result ≡ plain.number z }
{
    Value::Number(z)
}

/// Whether something stands at a spot.
fn stands(m: &RunState, spot: &Spot) -> bool
    ensures { result ≡ is_some (spot_value (state_of m.now) (spot_of spot.now)) }
{
    match value_of_spot(m, spot) {
        Some(_) => true,
        None => false,
    }
}

/// Puts a number where something stands.
fn put_number(alloc: Global, m: &mut RunState, spot: &Spot, z: i128) -> Result<(), NoMemory>
    ensures run { OnOk result (run.write (spot_of spot.now) (plain.number z) 0 (state_of m.old) ≡ run.Done (tt {0}) (state_of m.new)) }
    ensures base { OnOk result (base_of m.new ≡ base_of m.old) }
{
    match put(alloc, m, spot, number(z), 0) {
        Ok(()) => Ok(()),
        Err(_) => Err(NoMemory),
    }
}

/// An input takes its value; one that stands nowhere takes none.
#[tactic(auto, using(crate::proofs::InputLaws::put_so, crate::proofs::InputLaws::nowhere_so))]
fn give(alloc: Global, m: &mut RunState, x: &Located<'_>, input: &[u8]) -> Result<(), NoMemory>
    ensures run { OnOk result (state_of m.new ≡ with_store (state_of m.old) (given_to input.now (seen x.now) (state_of m.old).store)) }
    ensures base { OnOk result (base_of m.new ≡ base_of m.old) }
{
    let path = copy_path(alloc, &x.path)?;
    let spot = Spot::Region(path);
    if !stands(m, &spot) {
        return Ok(());
    }
    let z = input_value(input, x)?;
    put_number(alloc, m, &spot, z)?;
    Ok(())
}

/// Whether a region is one of these.
pub fn is_among(regions: &[u32], region: u32) -> bool
    ensures { result ≡ is_among region regions.now }
{
    regions.contains(&region)
}

/// An input in these regions takes its value.
fn latch_one(
    alloc: Global,
    m: &mut RunState,
    x: &Located<'_>,
    regions: &[u32],
    input: &[u8],
) -> Result<(), NoMemory>
    ensures run { OnOk result (state_of m.new ≡ with_store (state_of m.old) (latched_one regions.now input.now (seen x.now) (state_of m.old).store)) }
    ensures base { OnOk result (base_of m.new ≡ base_of m.old) }
{
    if is_input(x.address) && is_among(regions, x.path.region) {
        give(alloc, m, x, input)
    } else {
        Ok(())
    }
}

/// The inputs among these variables, in these regions, take their values. Behind the bytes that are given stand zeros.
pub fn latch(
    alloc: Global,
    m: &mut RunState,
    located: &[Located<'_>],
    regions: &[u32],
    input: &[u8],
) -> Result<(), NoMemory>
    ensures run { OnOk result (state_of m.new ≡ with_store (state_of m.old) (words.latch (all_seen located.now) regions.now input.now (state_of m.old).store)) }
    ensures base { OnOk result (base_of m.new ≡ base_of m.old) }
{
    for x in located {
        match latch_one(alloc, m, x, regions, input) {
            Ok(()) => {}
            Err(NoMemory) => return Err(NoMemory),
        }
    }
    Ok(())
}
