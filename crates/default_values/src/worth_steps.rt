//! Within how many steps of containment types have a worth: what an initial value of a type can be worth at all
//! (IEC 61131-3:2013, 6.4.4 and 6.5.1.4).

mod counts;
mod laws;
mod rounds;

pub use laws::step_laws;
pub use rounds::StructureSteps;
