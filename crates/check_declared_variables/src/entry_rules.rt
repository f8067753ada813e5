//! All rules of an entry of TYPE but those of its name, and its typed tree (IEC 61131-3:2013, 6.4.4).

mod bodies;
mod entries;
mod groups;

pub use entries::{CheckedEntry, check_entry};
