//! The types of a program unfolded into trees, as the meaning unfolds them.
#![tactic(auto)]

mod instances;
mod names;
mod parts;
mod same;
mod shape;
mod unfolding;

pub use instances::has_instance;
pub use names::class_name;
pub use parts::{part, shape_at};
pub use same::{same_elem, same_names, same_shape};
pub use shape::{Field, Shape};
pub use unfolding::{Shapes, region_shape, region_shapes, type_shape};
