//! More told tells no less: laws of what a unit says of its names, and a routine of its locals. They are what lets types and the values of
//! constants be found one by one, in any order, where the definitions go over all names in rounds.

mod told;

pub use told::{local_laws, telling_laws, told_laws};
