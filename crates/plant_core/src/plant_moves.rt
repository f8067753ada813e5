//! Images that change places between tables: what a claim takes of the regions at home, and what comes home again.

mod moves;

pub use moves::{move_all, take_images};
