//! Initial values: the rules that they break, and their typed trees (IEC 61131-3:2013, 6.4.4 and 6.5.1.4).
#![tactic(auto)]

mod counts;
mod fields;
mod found;
mod nodes;
mod walk;
mod worth;

pub use found::CheckedInitial;
pub use walk::check_initial;
pub use worth::with_value;
