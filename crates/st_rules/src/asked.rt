//! What the place of an expression asks it for.

ghost use Rattle.std.specs.Prelude.{◌≡◌, IfOk};

use plc_text::NoMemory;
use st_types::StType;
use std::alloc::Global;

/// The type that a place asks for (IEC 61131-3:2013, 6.3.2).
pub enum Asked {
    /// It asks for none.
    Anything,
    Wanted(StType),
    /// It asks for one that cannot be told.
    Untold,
}

// By hand, so that a drop is one call: a derived one is written out wherever a `?` may need it, and a proof goes over each part.
impl Drop for Asked {
    fn drop(self) {
        match self {
            Asked::Anything => {}
            Asked::Wanted(_) => {}
            Asked::Untold => {}
        }
    }
}

/// The same again.
pub fn asked_again(alloc: Global, asked: &Asked) -> Result<Asked, NoMemory>
    ensures { IfOk result (λ copy. copy ≡ asked.now) }
{
    match asked {
        Asked::Wanted(t) => {
            let copy = t.copy(alloc)?;
            Ok(Asked::Wanted(copy))
        }
        Asked::Anything => Ok(Asked::Anything),
        Asked::Untold => Ok(Asked::Untold),
    }
}
