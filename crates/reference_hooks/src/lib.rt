//! The plain program: the hooks of instances, FB_init, FB_exit and FB_reinit, as they are called when a program is loaded.
#![tactic(auto)]

mod chains;
mod given;
mod hooks;
mod tables;

pub use chains::{run_exit, run_init, run_reinit};
pub use hooks::{Halt, Instance, Stopped};
pub use tables::HookTables;
