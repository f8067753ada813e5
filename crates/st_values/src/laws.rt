//! Laws of the definitions.

ghost use Rattle.st_values.specs.ValueLaws.{ValueLaws, StoreLaws};
ghost use Rattle.st_values.specs.ShapeLaws.{ShapeLaws};

/// What is put into a value or a store is read there, and all else stays.
pub fn value_laws()
    ensures values { ValueLaws }
    ensures stores { StoreLaws }
{}

/// A type has one shape, which is made of those of its parts.
pub fn shape_laws()
    ensures { ShapeLaws }
{}
