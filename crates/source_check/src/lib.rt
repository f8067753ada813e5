//! Sources, from their text to the checked program or their refusal, and the rules of the language as what judges them (IEC 61131-3:2013).
#![tactic(auto)]

mod judge;
mod source;

pub use judge::Language;
pub use source::check_source;
