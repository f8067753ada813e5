//! The type of each region of a checked program of a good unit unfolds: what the rules of a unit accept can be laid out and run.

mod unfolded;

pub use unfolded::unfolding_laws;
