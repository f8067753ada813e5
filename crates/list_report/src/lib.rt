//! What the command `list` writes of a program: its regions, its tasks and its code. Nothing of how these are made.
#![tactic(auto)]

mod lines;
mod values;

pub use lines::list_text;
pub use values::value_count;
