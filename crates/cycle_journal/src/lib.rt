//! The journal that the controller writes: its plays, its entries, its text, and the reader of that text.
#![tactic(auto)]

mod candidate;
mod entry;
mod fields;
mod fits;
mod interleaving;
mod journal_error;
mod line_error;
mod outputs;
mod play;
mod reading;
mod writing;

pub use entry::{Answer, CycleReply, Entry};
pub use fits::fits_plays;
pub use interleaving::interleaving_laws;
pub use journal_error::JournalError;
pub use outputs::Outputs;
pub use play::{Play, are_named};
pub use reading::{one_journal, read_journal};
pub use writing::journal_text;
