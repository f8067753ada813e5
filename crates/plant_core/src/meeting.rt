//! Regions that two tasks want.

ghost use Rattle.std.specs.Prelude.{ℕ, MatchOption};
ghost use Rattle.plant_rules.specs.Meaning.{Has, Rising};
ghost use Rattle.plant_core.specs.Private.Meeting.{IsFrom, IsCommon, Meets, MeetsFirst};

// What is left of rising regions from this one on.
fn from_region(regions: &[u32], region: u32) -> &[u32]
    requires { Rising regions.now }
    ensures { IsFrom regions.now region result.now }
{
    let mut left = regions;
    'regions: while let Some((first, behind)) = left.split_first() {
        if *first >= region {
            return left;
        }
        left = behind;
    }
    left
}

// The least region that both have.
fn first_common(one: &[u32], other: &[u32]) -> Option<u32>
    requires one { Rising one.now }
    requires other { Rising other.now }
    ensures { MatchOption result ((r : ℕ) → Has one.now r → Has other.now r → ⊥) (λ r. IsCommon one.now other.now r) }
{
    let mut left = one;
    let mut others = other;
    'regions: while let Some((first, behind)) = left.split_first() {
        others = from_region(others, *first);
        let Some((other_first, _)) = others.split_first() else {
            return None;
        };
        if *other_first == *first {
            return Some(*first);
        }
        left = behind;
    }
    None
}

/// The least region that stands in the way of a task: one that it has and the other writes, or that it writes and the
/// other has.
pub fn first_meeting(
    reads: &[u32],
    writes: &[u32],
    other_reads: &[u32],
    other_writes: &[u32],
) -> Option<u32>
    requires reads { Rising reads.now }
    requires writes { Rising writes.now }
    requires other_reads { Rising other_reads.now }
    requires other_writes { Rising other_writes.now }
    ensures { MatchOption result ((r : ℕ) → Meets reads.now writes.now other_reads.now other_writes.now r → ⊥) (λ r. MeetsFirst reads.now writes.now other_reads.now other_writes.now r) }
{
    let Some(first) = first_common(reads, other_writes) else {
        return first_common(writes, other_reads);
    };
    match first_common(writes, other_reads) {
        None => Some(first),
        Some(second) => {
            if first <= second {
                Some(first)
            } else {
                Some(second)
            }
        }
    }
}
