//! What a checked program means: values and places of expressions, effects of statements, calls and cycles of tasks.
#![tactic(auto)]

mod laws;
pub mod st_frame;

pub use laws::run_laws;
pub use st_frame::{footprint_laws, frame_laws, good_laws};
