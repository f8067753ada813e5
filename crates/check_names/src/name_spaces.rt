//! Names that are declared twice in their space, and words that stand twice (IEC 61131-3:2013, 6.1.2).

mod held;
mod names_in;
mod twice;
mod words;

pub use held::HeldNames;
pub use names_in::{member_names, part_names, prototype_names, section_names};
pub use twice::{named_fault, twice_fault};
pub use words::{is_access_word, word_twice};
