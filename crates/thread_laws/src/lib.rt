//! Histories of a core over loaded versions are runs on one thread.
#![tactic(auto)]

mod laws;

pub use laws::{accepted_threads, thread_laws};
