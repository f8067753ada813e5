//! Values as trees: what stands at a path, and what is put there.
#![tactic(auto)]

mod copies;
mod exchange;
mod reading;
mod value;

pub use copies::{copy_path, copy_value};
pub use exchange::exchange_at;
pub use reading::value_at;
pub use value::{Member, Value};
