//! The words of the command line, as they order what the program does.

mod words;

pub use words::{Order, order_of};
