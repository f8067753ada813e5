//! What the variables, fields and regions of a program that replaces another one come from in that one, by name and mark, in tables.
#![tactic(auto)]

pub mod change_pairs;
pub mod change_paths;
mod classes;
mod names;
mod own;
mod regions;
mod side;
mod structures;

pub use change_pairs::{
    Pair, PairTable, Placed, Places, origins, place_of, put_name, region_origins, same_names,
};
pub use change_paths::{Change, FieldNumbers, new_path, old_path};
pub use names::ChangeNames;
pub use regions::RegionNumbers;
pub use side::Side;
