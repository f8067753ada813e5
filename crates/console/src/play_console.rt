//! The command `play`: a scenario is run on one thread, in the order of its plays, and its journal is written.

mod playing;
mod report;

pub use playing::play;
