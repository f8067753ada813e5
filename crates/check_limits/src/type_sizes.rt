//! How many values types have, and how deep they are (IEC 61131-3:2013, 6.4).

mod levels;
mod rounds;
mod size;
mod sizes;

pub use sizes::{TypeSizes, has_many_dimensions};
