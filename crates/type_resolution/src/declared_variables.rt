//! What sections declare, with the types, values and numbers of all names, in one scope (IEC 61131-3:2013, 6.5).

mod globals;
mod locals;
mod members;
mod names;

pub use globals::{add_globals, add_section_globals};
pub use locals::declared_locals;
pub use members::{declared_members, declared_program};
