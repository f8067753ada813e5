//! Outputs of a cycle.

ghost use Rattle.std.specs.Prelude.{◌≡◌, ◌≢◌, ◌++◌, ◌+◌, ◌-◌, ◌&&◌, nat_le, nat_lt, ◌<◌, ◌*◌, ◌/◌, ◌^◌, ◌%◌, pos, IfOk, OnOk, if◌then◌else◌, nat_eq, unsigned_abs, map};
ghost use Rattle.std.specs.Int.{int_rem_euclid};
ghost use Rattle.std.specs.List.{range_with_len};
ghost use Rattle.st_tree.specs.Address as text;
ghost use Rattle.st_meaning.specs.ProcessImage as words;
ghost use Rattle.st_values.specs.Value.{at};
ghost use Rattle.run_state.specs.State.{state_of};
ghost use Rattle.process_image.specs.Located.{all_seen, seen};
ghost use Rattle.process_image.specs.Private.Shown.{all_shown, byte_in, covered_by, one_shown, shown_in};

use crate::addresses::{bit_weight, bytes_in, first_byte, is_output, size_of};
use crate::inputs::is_among;
use crate::located::Located;
use cycle_journal::Outputs;
use plc_text::{NoMemory, Text};
use run_state::{RunState, Spot, value_of_spot};
use run_steps::number_in;
use st_tree::{Path, Width, width_of};
use std::alloc::Global;
use value_trees::copy_path;

/// The number of an output.
#[derive(Drop)]
struct Shown<'p> {
    address: &'p Text,
    number: i128,
}

/// The number that stands at a path; 0 where none stands.
fn number_at(alloc: Global, m: &RunState, path: &Path) -> Result<i128, NoMemory>
    ensures { IfOk result (λ z. z ≡ words.number_or_zero (at (state_of m.now).store path.now)) }
{
    let spot = Spot::Region(copy_path(alloc, path)?);
    match value_of_spot(m, &spot) {
        Some(v) => Ok(number_in(v)),
        None => Ok(0),
    }
}

/// Adds an output in these regions.
fn push_shown<'p>(
    alloc: Global,
    m: &RunState,
    out: &mut Vec<Shown<'p>>,
    x: &Located<'p>,
    regions: &[u32],
) -> Result<(), NoMemory>
    ensures { OnOk result (all_shown out.new.items ≡ all_shown out.old.items ++ one_shown regions.now (state_of m.now).store (seen x.now)) }
{
    if is_output(x.address) && is_among(regions, x.path.region) {
        let number = number_at(alloc, m, &x.path)?;
        out.push(Shown {
            address: x.address,
            number,
        })?;
        Ok(())
    } else {
        Ok(())
    }
}

/// The outputs in these regions.
#[tactic(auto, using(crate::proofs::ShownLaws::shown_next, crate::proofs::ShownLaws::shown_end))]
fn shown_outputs<'p>(
    alloc: Global,
    m: &RunState,
    located: &[Located<'p>],
    regions: &[u32],
) -> Result<Vec<Shown<'p>>, NoMemory>
    ensures { IfOk result (λ out. all_shown out.items ≡ shown_in regions.now (state_of m.now).store (all_seen located.now)) }
{
    let mut out = Vec::new(alloc);
    for x in located {
        push_shown(alloc, m, &mut out, x, regions)?;
    }
    Ok(out)
}

/// How many numbers so many bytes have.
fn range_of(width: Width) -> i128
    ensures value { result ≡ pos (256 ^ words.bytes_in width) }
    ensures some { result ≢ pos 0 }
{
    match width {
        Width::Bit => 256,
        Width::Byte => 256,
        Width::Word => 65_536,
        Width::DoubleWord => 4_294_967_296,
        Width::LongWord => 18_446_744_073_709_551_616,
    }
}

/// What is left of a number without so many low bytes.
fn without(n: u128, k: u32) -> u128
    ensures { result ≡ n / 256 ^ k }
{
    let mut left = n;
    for i in 0..k {
        let _ = i;
        left /= 256;
    }
    left
}

/// A byte of a number in two's complement, the low one first.
fn byte_of(z: &i128, width: Width, k: u32) -> u32
    ensures { result ≡ words.byte_of z.now (words.bytes_in width) k }
{
    let n = z.rem_euclid(range_of(width)).unsigned_abs();
    (without(n, k) % 256) as u32
}

/// What a single bit puts into its byte.
fn bit_number(address: &Text, z: &i128) -> Result<u32, NoMemory>
    ensures { IfOk result (λ n. n ≡ unsigned_abs z.now * 2 ^ text.bit_of address.now) }
{
    let weight = bit_weight(address)?;
    let Ok(n) = u32::try_from(z.unsigned_abs()) else {
        return Err(NoMemory);
    };
    match n.checked_mul(weight) {
        Some(n) => Ok(n),
        None => Err(NoMemory),
    }
}

/// What a single bit puts into a byte.
fn bit_share(address: &Text, first: u32, z: &i128, b: u32) -> Result<u32, NoMemory>
    ensures { IfOk result (λ n. n ≡ (if nat_eq b first then unsigned_abs z.now * 2 ^ text.bit_of address.now else 0)) }
{
    if b == first {
        bit_number(address, z)
    } else {
        Ok(0)
    }
}

/// What whole bytes from one on put into a byte.
fn bytes_share(first: u32, width: Width, z: &i128, b: u32) -> u32
    ensures { result ≡ (if nat_le first b && nat_lt b (first + words.bytes_in width) then words.byte_of z.now (words.bytes_in width) (b - first) else 0) }
{
    if first <= b && b - first < bytes_in(width) {
        byte_of(z, width, b - first)
    } else {
        0
    }
}

/// What an output puts into a byte.
fn share(x: &Shown<'_>, b: u32) -> Result<u32, NoMemory>
    ensures { IfOk result (λ n. n ≡ words.share x.now.address.now x.now.number b) }
{
    let first = first_byte(x.address)?;
    match width_of(x.address.as_str()) {
        Width::Bit => bit_share(x.address, first, &x.number, b),
        Width::Byte => Ok(bytes_share(first, Width::Byte, &x.number, b)),
        Width::Word => Ok(bytes_share(first, Width::Word, &x.number, b)),
        Width::DoubleWord => Ok(bytes_share(first, Width::DoubleWord, &x.number, b)),
        Width::LongWord => Ok(bytes_share(first, Width::LongWord, &x.number, b)),
    }
}

/// A byte of the outputs. No two outputs share a bit, so that no byte has more than eight.
#[tactic(auto, using(crate::proofs::ShownLaws::byte_next, crate::proofs::ShownLaws::byte_end))]
fn byte(shown: &[Shown<'_>], b: u32) -> Result<u8, NoMemory>
    ensures { IfOk result (λ n. n ≡ byte_in (all_shown shown.now) b) }
{
    let mut sum: u32 = 0;
    for x in shown {
        let n = share(x, b)?;
        let Some(more) = sum.checked_add(n) else {
            return Err(NoMemory);
        };
        sum = more;
    }
    match u8::try_from(sum) {
        Ok(byte) => Ok(byte),
        Err(_) => Err(NoMemory),
    }
}

/// How many bytes there are up to the last that an output covers.
#[tactic(auto, using(crate::proofs::ShownLaws::covered_next, crate::proofs::ShownLaws::covered_end))]
fn covered(shown: &[Shown<'_>]) -> Result<u32, NoMemory>
    ensures { IfOk result (λ n. n ≡ covered_by (all_shown shown.now)) }
{
    let mut most = 0;
    for x in shown {
        let first = first_byte(x.address)?;
        let Some(end) = first.checked_add(size_of(x.address)) else {
            return Err(NoMemory);
        };
        most = end.max(most);
    }
    Ok(most)
}

/// So many bytes.
#[tactic(auto, using(crate::proofs::ShownLaws::bytes_next))]
fn all_bytes(alloc: Global, shown: &[Shown<'_>], end: u32) -> Result<Vec<u8>, NoMemory>
    ensures { IfOk result (λ bytes. bytes.items ≡ map (byte_in (all_shown shown.now)) (range_with_len 0 end)) }
{
    let mut bytes = Vec::new(alloc);
    for b in 0..end {
        let n = byte(shown, b)?;
        bytes.push(n)?;
    }
    Ok(bytes)
}

/// There are 256 bytes of outputs at most.
fn outputs_of(bytes: &[u8]) -> Result<Outputs, NoMemory>
    ensures { IfOk result (λ outputs. outputs ≡ bytes.now) }
{
    if bytes.len() > 256 {
        return Err(NoMemory);
    }
    Ok(Outputs::from_slice(bytes))
}

/// The bytes up to the last that an output covers.
fn bytes_of(alloc: Global, shown: &[Shown<'_>]) -> Result<Outputs, NoMemory>
    ensures { IfOk result (λ outputs. outputs ≡ map (byte_in (all_shown shown.now)) (range_with_len 0 (covered_by (all_shown shown.now)))) }
{
    let end = covered(shown)?;
    if end > 256 {
        return Err(NoMemory);
    }
    let bytes = all_bytes(alloc, shown, end)?;
    outputs_of(&bytes)
}

/// The outputs among these variables, in these regions. There are 256 bytes of outputs at most, and no two outputs share a bit.
#[tactic(auto, using(crate::proofs::ShownLaws::collected))]
pub fn collect(
    alloc: Global,
    m: &RunState,
    located: &[Located<'_>],
    regions: &[u32],
) -> Result<Outputs, NoMemory>
    ensures { IfOk result (λ bytes. bytes ≡ words.collect (all_seen located.now) regions.now (state_of m.now).store) }
{
    let shown = shown_outputs(alloc, m, located, regions)?;
    let outputs = bytes_of(alloc, &shown)?;
    Ok(outputs)
}
