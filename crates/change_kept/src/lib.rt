//! Which regions a change keeps, which instances go on, and which leave and come.
#![tactic(auto)]

mod counterparts;
mod fresh;
mod instances;
mod kept;
mod marks;

pub use counterparts::{comes_from, goes_on};
pub use instances::{coming, leaving};
pub use kept::kept_regions;
