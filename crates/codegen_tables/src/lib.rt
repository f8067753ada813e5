//! What emitters look up: sizes of types, offsets of fields, what calls name, and where the locals of a routine lie.
#![tactic(auto)]

mod calls;
mod context;
mod sizes;

pub use calls::{CallEntry, CallTables};
pub use context::{Context, call_op, called_parameters};
pub use sizes::{Laid, Sizes, field_of, kind_of, size_of, variable_of};
