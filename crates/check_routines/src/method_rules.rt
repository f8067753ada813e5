//! All rules of one method of a class or of an interface, and its typed tree (IEC 61131-3:2013, 6.6.5).

mod methods;
mod prototypes;

pub use methods::{CheckedMethod, check_method};
pub use prototypes::{CheckedPrototype, check_prototype};
