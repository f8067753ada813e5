//! Laws of initial values.

ghost use Rattle.initial_laws.specs.InitialLaws.{InitialLaws};

/// In the checked program of a good unit that is formed all that declarations give as initial values is of its type.
pub fn initial_laws()
    ensures { InitialLaws }
{}
