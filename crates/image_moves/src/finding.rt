//! Instances looked up.

ghost use Rattle.std.specs.Prelude.{◌≡◌, None, MatchOption};
ghost use Rattle.image_moves.specs.Ways.{led, led_in, further, at_element, of_size, IsLow, Found};
ghost use Rattle.image_moves.specs.WayViews.{way_of, parts_of, stride_of};

use crate::ways::{Part, Stride, Way};

/// So many bytes further on; None where 32 bits are too few.
fn moved(target: u32, found: Option<(u32, u32)>) -> Option<(u32, u32)>
    ensures { IsLow (further target found) → result ≡ further target found }
{
    let (offset, class) = found?;
    let sum = target.checked_add(offset)?;
    Some((sum, class))
}

/// Where the element of this number begins, if there is one.
fn place(stride: &Stride, k: u32) -> Option<u32>
    ensures { (f : Found) → MatchOption result (IsLow (at_element (stride_of stride.now) f k) → at_element (stride_of stride.now) f k ≡ None) (λ n. at_element (stride_of stride.now) f k ≡ further n f) }
{
    if k < stride.skip {
        return None;
    }
    let j = u64::from(k - stride.skip) + u64::from(stride.lead);
    if j >= u64::from(stride.count) {
        return None;
    }
    (j as u32).checked_mul(stride.new)
}

/// Where the instance that begins at an offset of the old value lies in the new one, and the number of its class there.
#[cycle(finding)]
#[tactic(auto, using(crate::specs::WayViews::way_views))]
pub fn find(way: &Way, offset: u32) -> Option<(u32, u32)>
    ensures { IsLow (led (way_of way.now) offset) → result ≡ led (way_of way.now) offset }
{
    match way {
        Way::Nowhere => None,
        Way::Instance(class, parts) => {
            if offset == 0 {
                let class = (*class)?;
                Some((0, class))
            } else {
                find_part(parts.as_slice(), offset)
            }
        }
        Way::Fields(parts) => find_part(parts.as_slice(), offset),
        Way::Elements(stride, inner) => {
            if stride.old == 0 {
                return None;
            }
            let start = place(stride, offset / stride.old)?;
            let found = find(inner.get(), offset % stride.old);
            moved(start, found)
        }
    }
}

/// The same in the first part that ends behind the offset.
#[cycle(finding)]
#[tactic(auto, using(crate::proofs::FindFacts::part_first, crate::proofs::FindFacts::part_later))]
fn find_part(parts: &[Part], offset: u32) -> Option<(u32, u32)>
    ensures { IsLow (led_in (parts_of parts.now) offset) → result ≡ led_in (parts_of parts.now) offset }
{
    for part in parts {
        if offset < part.end {
            let found = find(&part.way, offset.saturating_sub(part.start));
            return moved(part.target, found);
        }
    }
    None
}
