//! A good unit keeps what is promised to the meaning of its program.
#![tactic(auto)]

mod laws;

pub use laws::promise_laws;
