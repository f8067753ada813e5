//! The plain program: what one play of a cycle or of a reset is answered, what it leaves, and which tasks are gone behind a change.
#![tactic(auto)]

mod controller;
mod gone;
mod held;
mod plays;

pub use controller::{Controller, Gone, Plan};
pub use gone::gone_behind;
pub use plays::{play_cycle, play_reset};
