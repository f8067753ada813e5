//! Laws of bodies.

ghost use Rattle.statement_laws.specs.BodyLaws.{BodyLaws};

/// A body that breaks no rule is as it is promised, where the rules and the meaning agree on what names are.
pub fn body_laws()
    ensures { BodyLaws }
{}
