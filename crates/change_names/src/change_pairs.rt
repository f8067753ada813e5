//! Which old names variables come from, for one declaration and for lists of variables, by tables of names.

mod pairs;
mod places;
mod regions;
mod sources;

pub use pairs::PairTable;
pub use places::{Places, place_of, put_name};
pub use regions::{Placed, region_origins};
pub use sources::{Pair, origins, same_names};
