//! What a core asks of a program that it runs, and histories of cores, as the words of contracts.
#![tactic(auto)]

mod controlled;
pub mod plant_history;
mod quiet;

pub use controlled::{Backed, Controlled, Kit, Next};
pub use plant_history::history_laws;
pub use quiet::{Migrated, Quiet};
