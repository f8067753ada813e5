//! The code of statements, written from the last cell to the first.
#![tactic(auto)]

mod assignments;
mod backward;
mod counting;
mod destinations;
mod labels;
mod loops;
mod statements;
mod steps;

pub use assignments::copied_from;
pub use destinations::Destinations;
pub use statements::emit_body;
