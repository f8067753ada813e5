//! The declarations of a unit, checked one after the other, with their typed trees (IEC 61131-3:2013, 6.4 to 6.8).

mod classes;
mod entries;
mod globals;
mod interfaces;
mod routines;
mod so_far;
mod trees;

pub use check_classes::ClassSide;
pub use classes::pass_class;
pub use entries::pass_entry;
pub use globals::{pass_configuration, pass_global};
pub use interfaces::pass_interface;
pub use routines::{pass_function, pass_program};
pub use so_far::{Bad, CheckedSoFar};
pub use trees::Trees;
