//! Numbers for what initial values are worth: equal worths have one number, and different worths have different ones, so that signatures
//! are compared by numbers (IEC 61131-3:2013, 6.6.5.4).

mod node;
mod numbers;

pub use node::Node;
pub use numbers::{Listed, WorthNumbers};
