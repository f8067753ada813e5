//! Inputs and outputs of a cycle: variables with addresses, and the bytes of the process image.
#![tactic(auto)]

mod addresses;
mod inputs;
mod located;
mod outputs;

pub use addresses::{bit_weight, bytes_in, first_byte, is_input, is_output, size_of};
pub use inputs::{input_byte, input_number, is_among, latch};
pub use located::{Located, located_of};
pub use outputs::collect;
