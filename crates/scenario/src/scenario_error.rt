//! Why bytes gave no scenario.

ghost use Rattle.std.specs.Prelude.{◌≡◌};
ghost use Rattle.scenario.specs.declared.scenario_error.ScenarioError.TheVariants.{NoMemory as no_memory};

use plc_text::NoMemory;
use std::alloc::{AllocError, AllocFailed};
use thiserror::Error;

/// Why bytes gave no scenario.
#[derive(Clone, Copy, Debug, PartialEq, Eq, Error)]
pub enum ScenarioError {
    /// The bytes are no scenario. The number is that of the first line that no scenario has behind the lines before it, or
    /// that of the line behind the last.
    #[error("line {0} is none of a scenario")]
    Bad(u32),
    #[error("out of memory")]
    NoMemory,
}

impl From<NoMemory> for ScenarioError {
    ghost from_gives = { λ _ e. e ≡ no_memory };

    fn from(_e: NoMemory) -> ScenarioError {
        ScenarioError::NoMemory
    }
}

impl From<AllocError> for ScenarioError {
    ghost from_gives = { λ _ e. e ≡ no_memory };

    fn from(_e: AllocError) -> ScenarioError {
        ScenarioError::NoMemory
    }
}

impl<T: Drop> From<AllocFailed<T>> for ScenarioError {
    ghost from_gives = { λ _ e. e ≡ no_memory };

    fn from(_e: AllocFailed<T>) -> ScenarioError {
        ScenarioError::NoMemory
    }
}
