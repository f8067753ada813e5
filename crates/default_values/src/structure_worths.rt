//! The structures of a unit with what their fields are worth where nothing is given, each weighed once, from those of fewer steps of
//! containment (IEC 61131-3:2013, 6.4.4 and 6.5.1.4).

mod groups;
mod rounds;
mod unweighed;
mod worths;

pub use unweighed::DeclaredStructure;
pub use worths::structure_worths;
