//! Whether the names in a constant expression are told (IEC 61131-3:2013, 6.5.1.4).

mod told;

pub use told::names_are_told;
