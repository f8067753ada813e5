//! Text, places in a source, and the two ways in which a call is refused: by a rule, or for want of
//! memory.
#![tactic(auto)]

mod code;
mod counting;
mod denied;
mod fault;
mod fields;
mod lines;
mod memory;
mod numbers;
pub mod plc_series;
mod refusal;
mod text;
mod words;

pub use code::Code;
pub use counting::{narrowed, one_more};
pub use denied::Denied;
pub use fault::{Fault, FaultKind};
pub use fields::split_field;
pub use lines::{Lines, Span, line_of};
pub use memory::NoMemory;
pub use numbers::number;
pub use plc_series::Series;
pub use refusal::Refusal;
pub use sqlite_items::{Boxed, Items};
pub use text::Text;
pub use words::{
    is_blank, is_digit, is_letter, is_number, is_upper_word, is_word, is_word_character, opens,
    spells,
};
