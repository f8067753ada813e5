//! What arguments need to know of the parameters that they are for.

ghost use Rattle.std.specs.Prelude.{◌≡◌, map, drop, IfOk, slice_get, MatchOption, Some, None};
ghost use Rattle.st_rules.specs.Calls as calls;
ghost use Rattle.check_calls.specs.Matching.{matched_of, matched_all};
ghost use Rattle.check_nodes.specs.Slots.{slotted, slots, lent, used};

use check_calls::Matched;
use plc_text::NoMemory;
use st_rules::copied;
use st_tree::SectionSort;
use st_types::StType;
use std::alloc::Global;

/// A parameter, with its number among the parameters.
#[derive(Drop)]
pub struct Slot {
    pub number: usize,
    pub sort: SectionSort,
    /// None where the type cannot be told.
    pub kind: Option<StType>,
}

fn slot_of(alloc: Global, m: Option<Matched<'_>>) -> Result<Option<Slot>, NoMemory>
    ensures { IfOk result (λ x. slotted x ≡ used (matched_of m.entry)) }
{
    match m {
        Some(m) => {
            let kind = copied(alloc, &m.parameter.kind)?;
            Ok(Some(Slot {
                number: m.number,
                sort: m.parameter.sort,
                kind,
            }))
        }
        None => Ok(None),
    }
}

/// The parameters that the arguments are for.
pub(crate) fn slots_of(
    alloc: Global,
    matches: &[Option<Matched<'_>>],
) -> Result<Vec<Option<Slot>>, NoMemory>
    ensures { IfOk result (λ list. slots list.items ≡ map used (matched_all matches.now)) }
{
    let mut list = Vec::new(alloc);
    for m in matches {
        let slot = slot_of(alloc, *m)?;
        list.push(slot)?;
    }
    Ok(list)
}

/// What stands in the list at this place.
fn entry_at(list: &[Option<Slot>], number: usize) -> Option<&Option<Slot>>
    ensures { MatchOption result (slice_get list.now number ≡ None) (λ o. slice_get list.now number ≡ Some o.now) }
{
    list.get(number)
}

/// The parameter that the argument of this number is for.
pub fn slot_at(list: &[Option<Slot>], number: usize) -> Option<&Slot>
    ensures { lent result ≡ calls.first_match (drop number (slots list.now)) }
{
    match entry_at(list, number) {
        Some(slot) => match slot {
            Some(x) => Some(x),
            None => None,
        },
        None => None,
    }
}
