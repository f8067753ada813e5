//! What a change of a program does to what it held, first loads, and runs on one thread.
#![tactic(auto)]

pub mod carry_places;
mod laws;
mod one_thread;

pub use carry_places::{place_laws, write_laws};
pub use laws::{carry_laws, path_laws, same_laws, store_laws};
pub use one_thread::{Judge, one_answer, plays_keep, refusals_leave};
