//! The core of a plant: the loaded version with its regions, changed by one call at a time, and the history of all calls.
#![tactic(auto)]

mod answers;
mod causes;
mod changes;
mod claim;
mod cycles;
mod event;
mod hub;
mod meeting;
pub mod plant_moves;
pub mod play_order;
mod resets;
mod stage;
mod tasks;

pub use answers::{Begun, Later, OlderWish, ResetDone, Wanted, Wish};
pub use claim::{Claim, Ran};
pub use hub::Core;
pub use plant_moves::{move_all, take_images};
pub use play_order::Progress;
