//! The rules of a configuration as a whole, and the regions of its program instances (IEC 61131-3:2013, 6.8).

mod configurations;
mod instances;

pub use configurations::{CheckedConfiguration, check_configuration};
