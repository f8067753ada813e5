//! Laws of constants.

ghost use Rattle.st_unit_rules.specs.declared_names.ConstantLaws.{ConstantLaws};

/// What is told of a constant expression breaks no rule of values, and a zero divisor that the left operand does not reach is skipped.
pub fn constant_laws()
    ensures { ConstantLaws }
{}
