//! What a first load and the plays behind it come to.

use cycle_journal::Entry;
use plc_text::{Items, Refusal};

/// What a first load and the plays behind it come to.
#[derive(Drop)]
pub enum Played {
    /// The entries of the plays, in their order.
    Entries(Items<Entry>),
    /// A hook of the first load stopped at a fault, and nothing was played.
    Refused(Refusal),
}
