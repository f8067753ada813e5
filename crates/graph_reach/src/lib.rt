//! What each node of a graph leads to, in rows of bits, and searches over edges.
#![tactic(auto)]

mod bits;
mod order;
mod reach;
mod threads;

pub use bits::Row;
pub use reach::find_reached;
pub use threads::{Edge, Threads, left_order, turns};
