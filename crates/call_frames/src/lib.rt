//! The frame in which a routine runs: its locals, what is given to them, and what it leaves.
#![tactic(auto)]

mod left;
mod opening;
mod slots;

pub use left::{left_in_local, left_in_variable};
pub use opening::open;
pub use slots::Given;
