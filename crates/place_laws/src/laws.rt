//! Laws of what arguments are for.

ghost use Rattle.place_laws.specs.ArgumentLaws.{ArgumentLaws};

/// No two arguments of a call that breaks no rule go to one parameter.
pub fn argument_laws()
    ensures { ArgumentLaws }
{}
