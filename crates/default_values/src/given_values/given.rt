//! What is given in a list.

ghost use Rattle.std.specs.Prelude.{◌≡◌, ℕ, List, ◌<◌, ◌^◌, ◌-ℤ◌, min, map, Some, IfOk};
ghost use Rattle.st_tree.specs.Initial as plain;
ghost use Rattle.st_unit_rules.specs.Initials.{part_count};
ghost use Rattle.st_unit_rules.specs.Worth as worths;
ghost use Rattle.default_values.specs.given_values.Lent.{lent};
ghost use Rattle.default_values.specs.given_values.Lists as lists;

use plc_text::{NoMemory, Text};
use st_tree::{FieldInit, Init, Part, wide_number};
use std::alloc::Global;

/// How many elements an array of these bounds has.
pub fn count(low: &i128, high: &i128) -> Result<u128, NoMemory>
    ensures { IfOk result (λ n. n ≡ worths.count_to (high.now -ℤ low.now)) }
{
    let low = *low;
    let high = *high;
    if high < low {
        return Ok(0);
    }
    match high.checked_sub(low) {
        Some(more) => Ok(more as u128 + 1),
        None => Err(NoMemory),
    }
}

fn parts_in(init: &Init<u32>) -> &[Part<u32>]
    ensures { worths.list_given (Some (plain.initial_of init.now)) ≡ worths.parts_listed (plain.parts_of result.now) }
{
    match init {
        Init::Array(_, parts) => parts.as_slice(),
        Init::Value(_) => &[],
        Init::Fields(_, _) => &[],
    }
}

/// The list that is given for an array.
pub fn parts_given(given: Option<&Init<u32>>) -> &[Part<u32>]
    ensures { worths.list_given (lent given.entry) ≡ worths.parts_listed (plain.parts_of result.now) }
{
    match given {
        Some(init) => parts_in(init),
        None => &[],
    }
}

fn fields_in(init: &Init<u32>) -> &[FieldInit<u32>]
    ensures { (name : List ℕ) → worths.given_for name (Some (plain.initial_of init.now)) ≡ worths.given_named name (plain.fields_of result.now) }
{
    match init {
        Init::Fields(_, fields) => fields.as_slice(),
        Init::Value(_) => &[],
        Init::Array(_, _) => &[],
    }
}

/// The values that are given for a structure.
pub fn fields_given(given: Option<&Init<u32>>) -> &[FieldInit<u32>]
    ensures { (name : List ℕ) → worths.given_for name (lent given.entry) ≡ worths.given_named name (plain.fields_of result.now) }
{
    match given {
        Some(init) => fields_in(init),
        None => &[],
    }
}

fn value_in(field: &FieldInit<u32>) -> &Init<u32>
    ensures { result.now ≡ field.now.value }
{
    &field.value
}

/// The value that is given for a name, if there is one.
pub fn given_for<'a>(fields: &'a [FieldInit<u32>], name: &Text) -> Option<&'a Init<u32>>
    ensures { lent result ≡ worths.given_named name.now (plain.fields_of fields.now) }
{
    let mut left = fields;
    'fields: while let Some((field, behind)) = left.split_first() {
        if field.name == *name {
            return Some(value_in(field));
        }
        left = behind;
    }
    None
}

/// How often a part stands in its list; what takes more than 128 bits is the greatest number.
fn times(part: &Part<u32>) -> u128
    ensures { (n : ℕ) → n < 2 ^ 128 → min result n ≡ min (part_count (plain.part_of part.now)) n }
{
    match part {
        Part::One(_) => 1,
        Part::Repeated(_, digits, _) => wide_number(digits.as_str()).unwrap_or(u128::MAX),
    }
}

/// How often a part counts where there is room for so many elements.
pub fn used(part: &Part<u32>, room: u128) -> u128
    ensures { result ≡ min (part_count (plain.part_of part.now)) room }
{
    times(part).min(room)
}

/// What a part gives.
pub fn value_of(part: &Part<u32>) -> &Init<u32>
    ensures { plain.initial_of result.now ≡ lists.given_by (plain.part_of part.now) }
{
    match part {
        Part::One(value) => value,
        Part::Repeated(_, _, value) => value,
    }
}

/// The room before each part of a list, and the room behind all.
pub fn rooms(alloc: Global, room: u128, parts: &[Part<u32>]) -> Result<Vec<u128>, NoMemory>
    ensures { IfOk result (λ rs. rs.items ≡ lists.rooms room (map plain.part_of parts.now)) }
{
    let mut list = Vec::new(alloc);
    let mut room = room;
    let mut left = parts;
    'parts: while let Some((part, behind)) = left.split_first() {
        list.push(room)?;
        room -= used(part, room);
        left = behind;
    }
    list.push(room)?;
    Ok(list)
}
