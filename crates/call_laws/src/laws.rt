//! Laws of expressions, and of the calls in them.

ghost use Rattle.call_laws.specs.ExpressionLaws.{ExpressionLaws};

/// An expression that breaks no rule is as it is promised, where the rules and the meaning agree on what names are.
pub fn expression_laws()
    ensures { ExpressionLaws }
{}
