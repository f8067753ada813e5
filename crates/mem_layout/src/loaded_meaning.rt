//! What a loaded version of a program means, and that it keeps the laws of versions.

mod laws;

pub use laws::loaded_laws;
