//! Why a call gave no result.

ghost use Rattle.std.specs.Prelude.{◌≡◌};
ghost use Rattle.plc_text.specs.declared.denied.Denied.TheVariants.{Refused, NoMemory};

use crate::memory::NoMemory;
use crate::refusal::Refusal;
use std::alloc::{AllocError, AllocFailed};

/// Why a call gave no result: the program is refused, or memory ran out.
#[derive(Debug, Drop)]
pub enum Denied {
    Refused(Refusal),
    NoMemory,
}

impl From<NoMemory> for Denied {
    ghost from_gives = { λ _ denied. denied ≡ NoMemory };

    fn from(_want: NoMemory) -> Denied {
        Denied::NoMemory
    }
}

impl From<Refusal> for Denied {
    ghost from_gives = { λ refusal denied. denied ≡ Refused refusal };

    fn from(refusal: Refusal) -> Denied {
        Denied::Refused(refusal)
    }
}

impl From<AllocError> for Denied {
    ghost from_gives = { λ _ denied. denied ≡ NoMemory };

    fn from(_refused: AllocError) -> Denied {
        Denied::NoMemory
    }
}

/// The value that could not be stored is dropped.
impl<T: Drop> From<AllocFailed<T>> for Denied {
    ghost from_gives = { λ _ denied. denied ≡ NoMemory };

    fn from(_refused: AllocFailed<T>) -> Denied {
        Denied::NoMemory
    }
}
