//! What follows for every legal history.

mod histories;

pub use histories::history_laws;
