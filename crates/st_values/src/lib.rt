//! What the variables of a program hold: types unfolded into shapes, values as trees, paths into them, and initial values.
#![tactic(auto)]

mod laws;

pub use laws::{shape_laws, value_laws};
