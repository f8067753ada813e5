//! The values of constant expressions, by their typed trees (IEC 61131-3:2013, 6.5.1.4).

mod laws;
mod literals;
mod noted;
mod operations;
mod outcome;

pub use laws::value_laws;
pub use noted::noted_value;
pub use outcome::Outcome;
