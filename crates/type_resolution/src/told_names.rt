//! The types and constants of a unit, told in an order of need until all is told (IEC 61131-3:2013, 6.4 and 6.5.1.4).

mod found;
mod tell;
mod told;

pub use told::tell_all;
