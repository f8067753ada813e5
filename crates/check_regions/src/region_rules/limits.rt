//! The limits of regions: their number, and that of the values of all.

ghost use Rattle.std.specs.Prelude.{◌≡◌, ℕ};
ghost use Rattle.st_rules.specs.Faults.{least};
ghost use Rattle.st_unit_rules.specs.Limits as limits;
ghost use Rattle.check_limits.specs.type_sizes.Size.{capped};

use plc_text::Code;
use st_rules::when;

/// So many regions there may be.
const REGIONS: u32 = 1_024;

/// So many values all regions may have.
const VALUES: u64 = 131_072;

/// E16 at the line of a region behind so many that one more is too many.
pub fn too_many_regions(line: u32, before: u32) -> Option<(Code, u32)>
    ensures { (n : ℕ) → before ≡ capped n → result ≡ least (limits.too_many_regions line n) }
{
    when(before == REGIONS, Code::E16, line)
}

/// E16 at the line of the region with which the values of all come above the limit.
pub fn too_many_values(line: u32, before: u32, own: u32) -> Option<(Code, u32)>
    ensures { (n m : ℕ) → before ≡ capped n → own ≡ capped m → result ≡ least (limits.too_many_values line n m) }
{
    let before = u64::from(before);
    let all = before + u64::from(own);
    when(before <= VALUES && VALUES < all, Code::E16, line)
}
