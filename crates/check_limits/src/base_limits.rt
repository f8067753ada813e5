//! Limits of what stands above a class or an interface: more than 64 bases, or interfaces (E16).

mod bases;
mod heights;
mod ways;

pub use bases::too_many_bases;
pub use heights::InterfaceHeights;
