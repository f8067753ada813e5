//! Which routines the cycles of a task may enter.

mod asked;
mod conformers;
mod found;
mod search;
mod slots;

pub use conformers::{Conformers, Family, family_of};
pub use search::{programs_of, reached_routines};
