//! A table of declarations by name: pairs of a name and a value, with no name twice, in the order in
//! which they were added.
#![tactic(auto)]

mod add_error;
mod names;

pub use add_error::AddError;
pub use names::Names;
