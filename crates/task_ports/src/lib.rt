//! Inputs and outputs of cycles on images: where variables with addresses lie, and which bytes of the process image are theirs. Nothing of bodies.
#![tactic(auto)]

mod inputs;
mod laws;
mod outputs;
mod ports;
mod tasks;

pub use inputs::latch;
pub use laws::port_laws;
pub use outputs::collect;
pub use ports::Port;
pub use tasks::TaskPorts;
