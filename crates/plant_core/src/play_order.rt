//! A script of plays, and how far it has come: which play comes before which, and which one is the next of its list.

mod naming;
mod progress;
mod tables;

pub use progress::Progress;
