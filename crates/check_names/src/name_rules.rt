//! Names that are declared twice in their space, or may not be declared there (IEC 61131-3:2013, 6.1.2).

mod configurations;
mod spaces;

pub use configurations::{configuration_name_fault, hold_names};
pub use spaces::{conversion_fault, local_name_fault, prototype_name_fault, space_fault};
