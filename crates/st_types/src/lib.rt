//! The types of a program: the elementary kinds with their widths, ranges and widening, and the types that are
//! made of them (IEC 61131-3:2013, 6.4).
#![tactic(auto)]

mod elem;
mod range;
mod st_type;
mod widening;

pub use elem::Elem;
pub use range::{fits, highest, lowest};
pub use sqlite_items::Boxed;
pub use st_type::StType;
pub use widening::{reaches, widen, widening_laws};
