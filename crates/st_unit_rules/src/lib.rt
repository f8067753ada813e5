//! The rules that the declarations of a unit break, what a unit is refused for, and its checked program
//! (IEC 61131-3:2013, 6.4 to 6.8).
#![tactic(auto)]

pub mod declaration_list;
pub mod declared_names;
mod laws;
pub mod passing_laws;
pub mod refusal_codes;

pub use laws::refusal_laws;
