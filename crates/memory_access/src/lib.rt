//! What reading, writing, following and copying in the memory of the machine is in the state that it shows.
#![tactic(auto)]

mod laws;

pub use laws::access_laws;
