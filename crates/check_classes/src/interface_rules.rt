//! All rules of interfaces, and their typed trees (IEC 61131-3:2013, 6.6.6).

mod interfaces;
mod prototypes;

pub use interfaces::{CheckedInterface, check_interface};
