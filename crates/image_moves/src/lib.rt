//! Moves of bytes from the images of one program into those of another one, as data: ranges, addresses that are relocated, and
//! moves that repeat; and tables by which addresses are relocated.
#![tactic(auto)]

mod finding;
mod laws;
mod mover;
mod moves;
mod table;
mod ways;

pub use finding::find;
pub use laws::move_laws;
pub use mover::{Relocates, apply_moves};
pub use moves::{Move, Turns};
pub use table::{Addresses, Target};
pub use ways::{Part, Stride, Way};
