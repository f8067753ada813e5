//! What the text of a routine names, follows, calls and changes.
#![tactic(auto)]

mod calls;
mod expressions;
mod owners;
mod places;
mod statements;
mod uses;

pub use calls::{Callables, last_kind, receiver};
pub use places::{expression_note, root_note, selector_note};
pub use statements::body_uses;
pub use uses::{Called, Owner, Use};
