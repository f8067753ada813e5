//! What stands before a declaration of a unit, and the rules that are common to all declarations (IEC 61131-3:2013, 6.1.2).

mod before;

pub use before::DeclarationsBefore;
