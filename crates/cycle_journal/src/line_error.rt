//! Why a line gave no entry.

ghost use Rattle.std.specs.Prelude.{◌≡◌};
ghost use Rattle.cycle_journal.specs.declared.line_error.LineError.TheVariants.{NoMemory as no_memory};

use plc_text::NoMemory;

/// Why a line gave no entry.
#[derive(Clone, Copy, Debug, PartialEq, Eq)]
pub enum LineError {
    /// The line is no entry's.
    Bad,
    NoMemory,
}

impl From<NoMemory> for LineError {
    ghost from_gives = { λ _ e. e ≡ no_memory };

    fn from(_e: NoMemory) -> LineError {
        LineError::NoMemory
    }
}
