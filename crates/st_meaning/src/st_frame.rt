//! What the checker promises of a program, which stores are good, and which regions a task touches and changes.

mod laws;

pub use laws::{footprint_laws, frame_laws, good_laws};
