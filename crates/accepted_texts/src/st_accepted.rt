//! What a source is refused for, and the program that it is accepted as.

mod laws;

pub use laws::accepted_laws;
