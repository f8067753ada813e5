//! The command `check`: the first program of a scenario and each of its sources are judged, each alone, and what was found is written.

mod checking;
mod report;
mod sources;

pub use checking::check;
