//! Laws of types and constants that are told one by one, by the places at which they are declared: what code that finds them uses.

mod at_places;

pub use at_places::{local_place_laws, place_laws};
