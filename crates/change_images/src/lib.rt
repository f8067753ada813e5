//! The phases of a change on images: the old contents saved, hooks, regions carried by the plan.
#![tactic(auto)]

mod carrying;
mod hooks;
mod laws;
mod migration;
mod saving;

pub use carrying::{RegionMoves, carry_regions};
pub use hooks::{Halt, RunsHooks, Stop, run_hooks};
pub use laws::{change_laws, image_laws, table_laws};
pub use migration::{Plan, apply};
pub use saving::save;
