//! Where the values of a store lie in bytes, and which bytes spell which value. Definitions and their laws: the layout,
//! the compiler and the machine speak of bytes by them.

mod laws;

pub use laws::{initial_laws, place_laws, spelling_laws, store_laws};
