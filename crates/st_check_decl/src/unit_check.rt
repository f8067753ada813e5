//! A unit as it is checked: the checked program, or the first bad declaration with its least rule (IEC 61131-3:2013, 6).

mod checking;
mod configurations;
mod configured;
mod declarations;
mod globals;
mod program;
mod progress;
mod refused;
mod side;

pub use checking::check;
