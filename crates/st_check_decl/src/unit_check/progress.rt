//! How far a unit is checked.

ghost use Rattle.std.specs.Prelude.{◌≡◌, ℕ, List, IfOk};
ghost use Rattle.st_tree.specs.declared.unit.Decl.{Decl};
ghost use Rattle.st_unit_rules.specs.passing_laws.Passing.{no_declarations};
ghost use Rattle.st_check_decl.specs.unit_check.Private.Progress.{Reached};

use crate::checked_declarations::CheckedSoFar;
use global_rules::CheckedRegions;
use plc_text::NoMemory;
use std::alloc::Global;

/// The declarations that were checked, and their regions.
pub struct Progress {
    pub declarations: CheckedSoFar,
    pub regions: CheckedRegions,
}

// By hand, so that a drop is one call: a derived one is written out wherever a `?` may need it.
impl Drop for Progress {
    fn drop(self) {
        let Progress {
            declarations,
            regions,
        } = self;
        drop(declarations);
        drop(regions);
    }
}

impl Progress {
    /// The declarations, and the regions.
    pub fn into_parts(self) -> (CheckedSoFar, CheckedRegions)
        ensures { result ≡ (self.declarations, self.regions) }
    {
        let Progress {
            declarations,
            regions,
        } = self;
        (declarations, regions)
    }
}

/// Nothing was checked.
pub fn nothing_checked(alloc: Global) -> Result<Progress, NoMemory>
    ensures { IfOk result (λ p. (decls : List (Decl ℕ)) → Reached p decls no_declarations) }
{
    let regions = CheckedRegions::none(alloc)?;
    Ok(Progress {
        declarations: CheckedSoFar::none(alloc),
        regions,
    })
}
