//! The blocks that each program text has before its own declarations (IEC 61131-3:2013, 6.6.3.5).
#![tactic(auto)]

mod prelude;
mod text;

pub use prelude::{give_back, with_prelude};
