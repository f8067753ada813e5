//! The names of a unit with nothing told of them: what its types and constants are told into, one by one.

mod classes;
mod globals;
mod laws;
mod routines;
mod types;
mod variables;

pub use classes::{untold_class, untold_interfaces};
pub use globals::untold_globals;
pub use laws::untold_laws;
pub use routines::{untold_methods, untold_prototypes, untold_routine};
pub use types::{untold_parts, untold_types};
pub use variables::{untold_members, untold_variable};
