//! Laws of names with nothing told.

ghost use Rattle.declared_symbols.specs.untold_names.Untold.{UntoldLaws};

/// What is told of a unit's names from anything, forgotten again, is its names alone.
pub fn untold_laws()
    ensures { UntoldLaws }
{}
