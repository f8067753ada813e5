//! Disjoint equals serial: what tasks of one phase that share no region give does not hang on the order in which they run.
#![tactic(auto)]

mod laws;

pub use laws::{serial_runs, serial_threads};
