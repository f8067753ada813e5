//! Laws of constants.

ghost use Rattle.constant_laws.specs.ConstantLaws.{ConstantLaws};

/// In each scope of a checked unit what is told of a constant is a number of its type.
pub fn constant_laws()
    ensures { ConstantLaws }
{}
