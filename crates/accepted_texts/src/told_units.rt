//! In a unit that breaks no rule every type, constant and result is told, and such a unit has a checked program (IEC 61131-3:2013, 6.4 and
//! 6.5).

mod told;

pub use told::told_unit_laws;
