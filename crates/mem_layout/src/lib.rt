//! Where the values of a program lie in the images of its regions: sizes, the place of a path, the path of a place.
#![tactic(auto)]

mod entries;
pub mod initial_images;
mod layout;
pub mod loaded_meaning;
mod places;
mod rounds;
mod sizes;
pub mod store_bytes;
mod ways;

pub use layout::Layout;
