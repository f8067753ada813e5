//! Why a text gave no journal.

ghost use Rattle.std.specs.Prelude.{◌≡◌};
ghost use Rattle.cycle_journal.specs.declared.journal_error.JournalError.TheVariants.{NoMemory as no_memory};

use plc_text::NoMemory;
use std::alloc::{AllocError, AllocFailed};
use thiserror::Error;

/// Why a text gave no journal.
#[derive(Clone, Copy, Debug, PartialEq, Eq, Error)]
pub enum JournalError {
    /// The text is no journal's. The number is that of the first line that no journal has behind the lines before it.
    #[error("line {0} is none of the journal")]
    Bad(u32),
    #[error("out of memory")]
    NoMemory,
}

impl From<NoMemory> for JournalError {
    ghost from_gives = { λ _ e. e ≡ no_memory };

    fn from(_e: NoMemory) -> JournalError {
        JournalError::NoMemory
    }
}

impl From<AllocError> for JournalError {
    ghost from_gives = { λ _ e. e ≡ no_memory };

    fn from(_e: AllocError) -> JournalError {
        JournalError::NoMemory
    }
}

impl<T: Drop> From<AllocFailed<T>> for JournalError {
    ghost from_gives = { λ _ e. e ≡ no_memory };

    fn from(_e: AllocFailed<T>) -> JournalError {
        JournalError::NoMemory
    }
}
