//! The two programs of a change.

ghost use Rattle.std.specs.Prelude.{◌≡◌};
ghost use Rattle.change_names.specs.change_paths.Private.Programs.{numbers_at, other, shapes_at};

use crate::change_paths::change::Change;
use crate::change_paths::numbers::FieldNumbers;
use shape_trees::Shapes;

/// One of the two programs of a change.
#[derive(Clone, Copy)]
pub enum Which {
    Old,
    New,
}

/// The other one.
pub fn other(which: Which) -> Which
    ensures { result ≡ other which }
{
    match which {
        Which::Old => Which::New,
        Which::New => Which::Old,
    }
}

/// The shapes of its regions.
pub fn shapes<'c, 'p>(c: &Change<'c, 'p>, which: Which) -> &'c Shapes<'p>
    ensures { result.now.list ≡ shapes_at c.now which }
{
    match which {
        Which::Old => c.old_shapes,
        Which::New => c.new_shapes,
    }
}

/// Where the variables of its classes and structures stand.
pub fn numbers<'c>(c: &Change<'c, '_>, which: Which) -> &'c FieldNumbers
    ensures { result.now ≡ numbers_at c.now which }
{
    match which {
        Which::Old => c.old_numbers,
        Which::New => c.new_numbers,
    }
}
