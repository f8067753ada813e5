//! Which path a place of a program had in the program before, and which it has in the next one.

mod change;
mod numbers;
mod paths;
mod turns;
mod walk;
mod ways;
mod which;

pub use change::Change;
pub use numbers::FieldNumbers;
pub use paths::{new_path, old_path};
