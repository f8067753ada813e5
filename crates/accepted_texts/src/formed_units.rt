//! What the grammar gives of a unit beyond a tree of any form (IEC 61131-3:2013, Annex A): sections stand where they may, brackets have an
//! index, enumerations have values, and no name is empty.

mod formed;

pub use formed::formed_laws;
