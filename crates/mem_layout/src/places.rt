//! Where a path leads, by its steps.

ghost use Rattle.std.specs.Prelude.{◌≡◌, suc, ℕ, Some, true, false};
ghost use Rattle.st_types.specs.declared.st_type.StType.TheVariants as type;
ghost use Rattle.st_values.specs.Program.{Program};
ghost use Rattle.st_values.specs.Shape.{Shape, shape_within};
ghost use Rattle.mem_layout.specs.store_bytes.Place.{part_place, inner_place};
ghost use Rattle.mem_layout.specs.Layout.{IsSmall, told};
ghost use Rattle.mem_layout.specs.Private.Table.{AreTables, Reach, named};
ghost use Rattle.mem_layout.specs.Private.Place.{IsElementAt, LeadsAt, offset_of};

use crate::sizes::{Tables, entry_at, size_of};
use st_tree::Step;
use st_types::StType;

/// How many bytes from the beginning of an array the element of an index lies, if it is within the bounds.
fn element_offset(low: &i128, high: &i128, index: &i128, element: u32) -> Option<u32>
    ensures { IsElementAt low.now high.now index.now element result }
{
    let index = *index;
    let low = *low;
    let high = *high;
    if index < low || high < index {
        return None;
    }
    if element == 0 {
        return Some(0);
    }
    match index.checked_sub(low) {
        Some(k) if k <= 0xffff_ffff => (k as u32).checked_mul(element),
        _ => None,
    }
}

/// Where a step leads in an array.
fn part_of_array<'a>(
    tables: &'a Tables,
    low: &i128,
    high: &i128,
    of: &'a StType,
    step: &Step,
) -> Option<(u32, &'a StType)>
    ensures { (p : Program) (n : ℕ) (sh : Shape) → AreTables p tables.now → Reach p n tables.now → shape_within p (suc n) (type.Array low.now high.now of.now) ≡ Some sh → IsSmall sh → LeadsAt p n (told result) (part_place sh step.now) }
{
    match step {
        Step::Element(index) => {
            let element = size_of(tables, of)?;
            let offset = element_offset(low, high, index, element.size)?;
            Some((offset, of))
        }
        Step::Field(_) => None,
    }
}

/// Where a step leads in a structure or an instance.
fn part_of_fields<'a>(
    tables: &'a Tables,
    class: bool,
    k: u32,
    step: &Step,
) -> Option<(u32, &'a StType)>
    ensures { (p : Program) (n : ℕ) (sh : Shape) → AreTables p tables.now → Reach p (suc n) tables.now → shape_within p (suc n) (named class k) ≡ Some sh → IsSmall sh → LeadsAt p n (told result) (part_place sh step.now) }
{
    match step {
        Step::Field(field) => {
            let entry = entry_at(tables, class, k)?;
            let row = entry.fields.get(*field as usize)?;
            Some((row.offset, &row.kind))
        }
        Step::Element(_) => None,
    }
}

/// Where a step leads: how many bytes from the beginning, and to what type.
pub fn part<'a>(tables: &'a Tables, kind: &'a StType, step: &Step) -> Option<(u32, &'a StType)>
    ensures { (p : Program) (n : ℕ) (sh : Shape) → AreTables p tables.now → Reach p (suc n) tables.now → shape_within p (suc n) kind.now ≡ Some sh → IsSmall sh → LeadsAt p n (told result) (part_place sh step.now) }
{
    match kind {
        StType::Array(low, high, of) => part_of_array(tables, low, high, of.get(), step),
        StType::Structure(k) => part_of_fields(tables, false, *k, step),
        StType::Instance(k) => part_of_fields(tables, true, *k, step),
        StType::Elementary(_) => None,
        StType::Enumeration(_) => None,
        StType::Reference(_) => None,
        StType::Interface(_) => None,
    }
}

/// How many bytes from the beginning lies what the steps lead to, if they lead to something.
pub fn place(tables: &Tables, kind: &StType, steps: &[Step]) -> Option<u32>
    ensures { (p : Program) (n : ℕ) (sh : Shape) → AreTables p tables.now → Reach p (suc n) tables.now → shape_within p (suc n) kind.now ≡ Some sh → IsSmall sh → result ≡ offset_of (inner_place sh steps.now) }
{
    let mut at = kind;
    let mut offset = 0u32;
    let mut left = steps;
    'steps: while let Some((step, behind)) = left.split_first() {
        let (more, next) = part(tables, at, step)?;
        offset = offset.checked_add(more)?;
        at = next;
        left = behind;
    }
    Some(offset)
}
