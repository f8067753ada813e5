//! Addresses: how one moves on, and the numbers as which references are kept.

ghost use Rattle.std.specs.Prelude.{◌≡◌, ◌+◌, ◌*◌, ◌^◌, ◌<◌, IfOk, IfErr};
ghost use Rattle.stack_code.specs.declared.machine.Ending.TheVariants.{Stuck};
ghost use Rattle.st_types.specs.declared.elem.Elem.TheVariants as kind;
ghost use Rattle.st_types.specs.Range.{Fits};
ghost use Rattle.stack_code.specs.declared.memory.Word.TheVariants as word;
ghost use Rattle.stack_code.specs.Memory as memory;
ghost use Rattle.stack_code.specs.Machine as machine;
ghost use Rattle.machine_memory.specs.Answers.{settled};

use crate::numbers::fault;
use plc_num::wrap;
use plc_text::FaultKind;
use st_types::Elem;
use stack_code::{Address, Ending, Space, Word};

/// The address so many bytes further on. Stuck where the offset passes 2^32 - 1.
#[inline]
pub fn moved(a: Address, bytes: u64) -> Result<Address, Ending>
    ensures { memory.moved a bytes ≡ settled result }
{
    if bytes >= 0x1_0000_0000 {
        return Err(Ending::Stuck);
    }
    let offset = a.offset as u64 + bytes;
    if offset >= 0x1_0000_0000 {
        return Err(Ending::Stuck);
    }
    Ok(Address {
        space: a.space,
        index: a.index,
        offset: offset as u32,
    })
}

/// The number as which a word is kept in eight bytes. Stuck where that of an address in a region passes 2^63 - 1.
#[inline]
pub fn kept(word: Word) -> Result<i128, Ending>
    ensures value { memory.kept word ≡ settled result }
    ensures fits { IfOk result (λ v. Fits kind.Ulint v) }
    ensures stuck { IfErr result (λ e. e ≡ Stuck) }
{
    match word {
        Word::Number(v) => Ok(wrap(Elem::Ulint, v)),
        Word::Null => Ok(0),
        Word::Address(a) => address_kept(a),
    }
}

#[inline]
fn address_kept(a: Address) -> Result<i128, Ending>
    ensures value { memory.address_kept a.space (memory.number_kept a.space a.index a.offset) ≡ settled result }
    ensures fits { IfOk result (λ v. Fits kind.Ulint v) }
    ensures stuck { IfErr result (λ e. e ≡ Stuck) }
{
    match a.space {
        Space::Regions => {
            let number = a.index as u128 * 0x1_0000_0000 + a.offset as u128 + 1;
            if number >= 0x8000_0000_0000_0000 {
                return Err(Ending::Stuck);
            }
            Ok(number as i128)
        }
        Space::Locals => {
            let number = 0x8000_0000_0000_0000 + a.index as u128 * 0x1_0000_0000 + a.offset as u128;
            Ok(wrap(Elem::Ulint, number as i128))
        }
    }
}

#[inline]
fn address_of(number: u64) -> Address
    requires { 0 < number }
    ensures { result ≡ memory.address_of number }
{
    if number < 0x8000_0000_0000_0000 {
        let place = number - 1;
        Address {
            space: Space::Regions,
            index: (place / 0x1_0000_0000) as u32,
            offset: (place % 0x1_0000_0000) as u32,
        }
    } else {
        let place = number - 0x8000_0000_0000_0000;
        Address {
            space: Space::Locals,
            index: (place / 0x1_0000_0000) as u32,
            offset: (place % 0x1_0000_0000) as u32,
        }
    }
}

/// The reference that is kept as this number.
#[inline]
pub fn reference_of(number: i128) -> Word
    requires { Fits kind.Ulint number }
    ensures { result ≡ memory.reference_of number }
{
    let number = number as u64;
    if number == 0 {
        Word::Null
    } else {
        Word::Address(address_of(number))
    }
}

/// The element with that index.
#[inline]
pub fn element(
    a: Address,
    lo: i128,
    hi: i128,
    size: u32,
    i: i128,
    line: u32,
) -> Result<Address, Ending>
    ensures { machine.element a lo hi size i line ≡ settled result }
{
    if i < lo || hi < i {
        return Err(fault(FaultKind::Index, line));
    }
    match i.abs_diff(lo).checked_mul(size as u128) {
        Some(bytes) if bytes < 0x1_0000_0000 => moved(a, bytes as u64),
        _ => Err(Ending::Stuck),
    }
}

#[inline]
fn same_space(a: Space, b: Space) -> bool
    ensures { result ≡ memory.same_space a b }
{
    match a {
        Space::Regions => match b {
            Space::Regions => true,
            Space::Locals => false,
        },
        Space::Locals => match b {
            Space::Regions => false,
            Space::Locals => true,
        },
    }
}

#[inline]
fn same_address(a: Address, b: Address) -> bool
    ensures { result ≡ memory.same_reference (word.Address a) (word.Address b) }
{
    same_space(a.space, b.space) && a.index == b.index && a.offset == b.offset
}

/// Whether two references are equal.
#[inline]
pub fn same_reference(a: Word, b: Word) -> bool
    ensures { result ≡ memory.same_reference a b }
{
    match a {
        Word::Number(_) => false,
        Word::Address(a) => match b {
            Word::Address(b) => same_address(a, b),
            _ => false,
        },
        Word::Null => match b {
            Word::Null => true,
            _ => false,
        },
    }
}
