//! The rules of globals, and the regions that they make (IEC 61131-3:2013, 6.5.5 and 6.8).
#![tactic(auto)]

mod globals;
mod regions;
mod sections;
mod shared;

pub use globals::{CheckedRegions, check_global};
pub use sections::check_globals;
pub use shared::{SharedItem, check_shared};
