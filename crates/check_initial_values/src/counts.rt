//! How many values a list for an array gives, and how many the array has.

ghost use Rattle.std.specs.Prelude.{◌≡◌, ℕ, ◌+◌, ◌<◌, ◌≤◌, ◌^◌, Some, IfOk};
ghost use Rattle.std.specs.Option.{SomeIff};
ghost use Rattle.st_types.specs.declared.st_type.StType.{out-StType};
ghost use Rattle.st_tree.specs.Initial.{part_of, parts_of};
ghost use Rattle.st_rules.specs.Faults.{least};
ghost use Rattle.st_unit_rules.specs.Initials as initials;
ghost use Rattle.check_initial_values.specs.Lent.{lent};
ghost use Rattle.check_initial_values.specs.Private.Counts.{room_between};

use plc_text::{Code, NoMemory};
use st_rules::when;
use st_tree::{Part, wide_number};
use st_types::StType;

/// How many values a part gives; nothing where they take more than 128 bits.
#[tactic(auto, using(st_tree::specs::Initial::initial_views))]
fn part_count(part: &Part<u32>) -> Option<u128>
    ensures { SomeIff result (initials.part_count (part_of part.now) < 2 ^ 128) (initials.part_count (part_of part.now)) }
{
    match part {
        Part::One(_) => Some(1),
        Part::Repeated(_, digits, _) => wide_number(digits.as_str()),
    }
}

/// The count with what one more part gives.
fn with_part_count(count: u128, part: &Part<u32>) -> Option<u128>
    ensures { SomeIff result (count + initials.part_count (part_of part.now) < 2 ^ 128) (count + initials.part_count (part_of part.now)) }
{
    match part_count(part) {
        Some(more) => count.checked_add(more),
        None => None,
    }
}

/// How many values a list gives; nothing where they take more than 128 bits.
pub fn count_parts(parts: &[Part<u32>]) -> Option<u128>
    ensures { SomeIff result (initials.count_parts (parts_of parts.now) < 2 ^ 128) (initials.count_parts (parts_of parts.now)) }
{
    let mut count: u128 = 0;
    for part in parts {
        count = with_part_count(count, part)?;
    }
    Some(count)
}

/// Whether an array of these bounds has fewer elements than so many.
fn is_below(low: i128, high: i128, count: u128) -> bool
    ensures { result ≡ initials.is_below (room_between low high) count }
{
    let apart = high.abs_diff(low);
    if high < low {
        count > 0 || apart > 1
    } else {
        count > 0 && apart < count - 1
    }
}

/// Whether an array of these bounds has fewer elements than a count that takes more than 128 bits. An array from the least number of 128
/// bits to the greatest has more than any memory holds.
fn is_below_all(low: i128, high: i128) -> Result<bool, NoMemory>
    ensures { (n : ℕ) → 2 ^ 128 ≤ n → IfOk result (λ below. below ≡ initials.is_below (room_between low high) n) }
{
    if low == i128::MIN && high == i128::MAX {
        Err(NoMemory)
    } else {
        Ok(true)
    }
}

/// Whether an array of these bounds has fewer elements than the count.
fn is_too_short(low: i128, high: i128, count: Option<u128>) -> Result<bool, NoMemory>
    ensures { (n : ℕ) → SomeIff count (n < 2 ^ 128) n → IfOk result (λ below. below ≡ initials.is_below (room_between low high) n) }
{
    match count {
        Some(count) => Ok(is_below(low, high, count)),
        None => is_below_all(low, high),
    }
}

/// More values than the array has, at this line.
pub fn count_fault(
    line: u32,
    kind: Option<&StType>,
    count: Option<u128>,
) -> Result<Option<(Code, u32)>, NoMemory>
    ensures { (n : ℕ) → SomeIff count (n < 2 ^ 128) n → IfOk result (λ f. f ≡ least (initials.more_values_than_elements line (lent kind.entry) n)) }
{
    match kind {
        Some(kind) => count_fault_of(line, kind, count),
        None => Ok(None),
    }
}

fn count_fault_of(
    line: u32,
    kind: &StType,
    count: Option<u128>,
) -> Result<Option<(Code, u32)>, NoMemory>
    ensures { (n : ℕ) → SomeIff count (n < 2 ^ 128) n → IfOk result (λ f. f ≡ least (initials.more_values_than_elements line (Some kind.now) n)) }
{
    match kind {
        StType::Array(low, high, _) => {
            let below = is_too_short(*low, *high, count)?;
            Ok(when(below, Code::E13, line))
        }
        StType::Elementary(_) => Ok(None),
        StType::Enumeration(_) => Ok(None),
        StType::Structure(_) => Ok(None),
        StType::Instance(_) => Ok(None),
        StType::Reference(_) => Ok(None),
        StType::Interface(_) => Ok(None),
    }
}

fn is_no_array(kind: &StType) -> bool
    ensures { result ≡ initials.is_no_array (out-StType kind.now) }
{
    match kind {
        StType::Array(_, _, _) => false,
        StType::Elementary(_) => true,
        StType::Enumeration(_) => true,
        StType::Structure(_) => true,
        StType::Instance(_) => true,
        StType::Reference(_) => true,
        StType::Interface(_) => true,
    }
}

/// A list in brackets for what is no array, at this line.
pub fn no_array_fault(line: u32, kind: Option<&StType>) -> Option<(Code, u32)>
    ensures { result ≡ least (initials.list_of_no_array line (lent kind.entry)) }
{
    match kind {
        Some(kind) => when(is_no_array(kind), Code::E07, line),
        None => None,
    }
}

/// The type of the elements of an array.
fn element_of(kind: &StType) -> Option<&StType>
    ensures { lent result ≡ initials.element_at (out-StType kind.now) }
{
    match kind {
        StType::Array(_, _, of) => Some(of.get()),
        StType::Elementary(_) => None,
        StType::Enumeration(_) => None,
        StType::Structure(_) => None,
        StType::Instance(_) => None,
        StType::Reference(_) => None,
        StType::Interface(_) => None,
    }
}

/// The type of the elements, where a list is for an array.
pub fn element_given(kind: Option<&StType>) -> Option<&StType>
    ensures { lent result ≡ initials.element_given (lent kind.entry) }
{
    match kind {
        Some(kind) => element_of(kind),
        None => None,
    }
}
