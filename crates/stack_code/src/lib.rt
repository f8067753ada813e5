//! Code of the stack machine: what compiled programs are made of, what running it means, and which code is valid.
#![tactic(auto)]

mod code;
pub mod code_listing;
mod machine;
mod memory;
mod op;
pub mod valid_code;
mod validity;

pub use code::{Body, Conformance, InterfaceTarget, MachineCode, MethodRoutine, RoutineCode};
pub use code_listing::listing;
pub use machine::{Ending, Frame, Outcome, run_laws};
pub use memory::{Address, Space, Word};
pub use op::{Kind, Op};
pub use valid_code::{ValidCode, validate};
pub use validity::valid_run_laws;
