//! All names of a unit with nothing told of them.

mod counts;
mod names;
mod sums;

pub use names::unit_untold;
