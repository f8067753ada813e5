//! Whether a unit is refused, and for what, or its checked program.
#![tactic(auto)]

pub mod checked_declarations;
pub mod unit_check;

pub use checked_declarations::{
    Bad, CheckedSoFar, ClassSide, Trees, pass_class, pass_configuration, pass_entry, pass_function,
    pass_global, pass_interface, pass_program,
};
pub use unit_check::check;
