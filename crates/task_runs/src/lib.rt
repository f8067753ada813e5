//! The runs of a task's programs, and of a hook, in compiled code do what the meaning says.
#![tactic(auto)]

mod laws;

pub use laws::task_laws;
