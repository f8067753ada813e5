//! Laws of the values of typed trees.

ghost use Rattle.constant_folding.specs.constant_values.ValueLaws.{ValueLaws};

/// The value of the typed tree is that of the expression, also of one that breaks rules or whose names are not told.
pub fn value_laws()
    ensures { ValueLaws }
{}
