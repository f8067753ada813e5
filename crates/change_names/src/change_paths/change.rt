//! Two programs of which the second is to replace the first, with all that a change looks into.

use crate::change_paths::numbers::FieldNumbers;
use crate::{ChangeNames, Side};
use shape_trees::Shapes;
use std::alloc::Global;

/// A change from one program to another: `'c` is how long its parts are lent, `'p` what the shapes hold of the programs.
#[derive(Clone, Copy)]
pub struct Change<'c, 'p> {
    pub alloc: Global,
    pub old: Side<'c>,
    pub new: Side<'c>,
    /// The shapes of the regions, by number; none of a region whose type has none.
    pub old_shapes: &'c Shapes<'p>,
    pub new_shapes: &'c Shapes<'p>,
    pub names: &'c ChangeNames<'c>,
    /// Where the variables of each name stand.
    pub old_numbers: &'c FieldNumbers,
    pub new_numbers: &'c FieldNumbers,
}
