//! What initial values are worth, as numbers in a table of worths (IEC 61131-3:2013, 6.4.4 and 6.5.1.4).

mod structures;
mod values;
mod walk;

pub use structures::{Group, Structure};
pub use values::ConstantValues;
pub use walk::weigh;
