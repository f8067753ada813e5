//! The path to what begins at a place, by search down the types.

ghost use Rattle.std.specs.Prelude.{◌≡◌, ◌≤◌, ◌+ℤ◌, ◌<ℤ◌, pos, suc, ℕ, true, false, IfOk, MatchOption, Some, length};
ghost use Rattle.st_types.specs.declared.st_type.StType.TheVariants as type;
ghost use Rattle.st_values.specs.Program.{Program};
ghost use Rattle.st_values.specs.Shape.{Shape, shape_within};
ghost use Rattle.mem_layout.specs.Layout.{IsSmall};
ghost use Rattle.mem_layout.specs.Private.Table.{AreTables, Reach, named};
ghost use Rattle.mem_layout.specs.Private.Way as ways;
ghost use Rattle.mem_layout.specs.Private.Way.{AreRising, AreBefore, IsElementStep, EntersIf, IsWay};

use crate::sizes::{Field, Tables, entry_at, size_of};
use plc_text::NoMemory;
use st_tree::{Step, Steps};
use st_types::StType;
use std::alloc::Global;

/// The step to the part in which a place lies, how many bytes from the beginning that part lies, and its type.
#[derive(Drop)]
pub struct Inward<'a> {
    pub step: Step,
    pub offset: u32,
    pub kind: &'a StType,
}

/// How many fields begin at the place or before it.
fn fields_before(rows: &[Field], left: u32) -> usize
    ensures within { result ≤ length rows.now }
    ensures before { AreRising rows.now → AreBefore rows.now left result }
{
    let mut low = 0;
    let mut high = rows.len();
    'halves: while low < high {
        let middle = low + (high - low) / 2;
        if rows[middle].offset <= left {
            low = middle + 1;
        } else {
            high = middle;
        }
    }
    low
}

/// The step to the element of this number, if it is within the bounds.
fn element_step(low: &i128, high: &i128, k: u32) -> Option<Step>
    ensures { MatchOption result (high.now <ℤ (low.now +ℤ pos k)) (λ s. IsElementStep low.now high.now k s) }
{
    let low = *low;
    let high = *high;
    match low.checked_add(k as i128) {
        Some(index) if index <= high => Some(Step::Element(index)),
        _ => None,
    }
}

/// The step into an array, if its elements reach so far.
fn into_array<'a>(
    tables: &'a Tables,
    low: &i128,
    high: &i128,
    of: &'a StType,
    left: u32,
) -> Option<Inward<'a>>
    ensures { (p : Program) (n : ℕ) (sh : Shape) → AreTables p tables.now → Reach p n tables.now → shape_within p (suc n) (type.Array low.now high.now of.now) ≡ Some sh → IsSmall sh → EntersIf p n sh left result }
{
    let element = size_of(tables, of)?;
    if element.size == 0 {
        return None;
    }
    let step = element_step(low, high, left / element.size)?;
    Some(Inward {
        step,
        offset: left - left % element.size,
        kind: of,
    })
}

/// The step into a structure or an instance, if a field begins at the place or before it.
fn into_fields(
    tables: &Tables,
    class: bool,
    k: u32,
    left: u32,
) -> Result<Option<Inward<'_>>, NoMemory>
    ensures { (p : Program) (n : ℕ) (sh : Shape) → AreTables p tables.now → Reach p (suc n) tables.now → shape_within p (suc n) (named class k) ≡ Some sh → IsSmall sh → IfOk result (λ o. EntersIf p n sh left o) }
{
    let Some(entry) = entry_at(tables, class, k) else {
        return Ok(None);
    };
    let rows = entry.fields.as_slice();
    let before = fields_before(rows, left);
    if before == 0 {
        return Ok(None);
    }
    let row = &rows[before - 1];
    let Ok(field) = u32::try_from(before - 1) else {
        return Err(NoMemory);
    };
    Ok(Some(Inward {
        step: Step::Field(field),
        offset: row.offset,
        kind: &row.kind,
    }))
}

/// The step to the part in which something may begin at the place.
fn towards<'a>(
    tables: &'a Tables,
    kind: &'a StType,
    left: u32,
) -> Result<Option<Inward<'a>>, NoMemory>
    ensures { (p : Program) (n : ℕ) (sh : Shape) → AreTables p tables.now → Reach p (suc n) tables.now → shape_within p (suc n) kind.now ≡ Some sh → IsSmall sh → IfOk result (λ o. EntersIf p n sh left o) }
{
    match kind {
        StType::Array(low, high, of) => Ok(into_array(tables, low, high, of.get(), left)),
        StType::Structure(k) => into_fields(tables, false, *k, left),
        StType::Instance(k) => into_fields(tables, true, *k, left),
        StType::Elementary(_) => Ok(None),
        StType::Enumeration(_) => Ok(None),
        StType::Reference(_) => Ok(None),
        StType::Interface(_) => Ok(None),
    }
}

/// Whether a type is neither an array nor a structure.
fn is_own(kind: &StType) -> bool
    ensures { (p : Program) (n : ℕ) (sh : Shape) → shape_within p n kind.now ≡ Some sh → result ≡ ways.is_own sh }
{
    match kind {
        StType::Array(_, _, _) => false,
        StType::Structure(_) => false,
        StType::Instance(_) => true,
        StType::Elementary(_) => true,
        StType::Enumeration(_) => true,
        StType::Reference(_) => true,
        StType::Interface(_) => true,
    }
}

/// The way to the instance, or to the value that is neither an array nor a structure, that begins so many bytes from the beginning,
/// in a type that has at most so many arrays, structures and instances within one another.
pub fn way(
    alloc: Global,
    tables: &Tables,
    kind: &StType,
    depth: u32,
    offset: u32,
) -> Result<Option<Steps>, NoMemory>
    ensures { (p : Program) (sh : Shape) → AreTables p tables.now → Reach p depth tables.now → shape_within p depth kind.now ≡ Some sh → IsSmall sh → IfOk result (λ o. IsWay sh offset o) }
{
    let mut at = kind;
    let mut left = offset;
    let mut deep = depth;
    let mut steps = Steps::new(alloc);
    'inward: while left > 0 || !is_own(at) {
        if deep == 0 {
            return Ok(None);
        }
        deep -= 1;
        let Some(next) = towards(tables, at, left)? else {
            return Ok(None);
        };
        let Some(rest) = left.checked_sub(next.offset) else {
            return Ok(None);
        };
        steps.push(next.step)?;
        left = rest;
        at = next.kind;
    }
    Ok(Some(steps))
}
