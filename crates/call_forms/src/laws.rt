//! Laws of calls that enter another routine than the one that they name.

ghost use Rattle.call_forms.specs.Laws.{LongerLaws};

/// What is given to a routine and taken from it is the same where the routine that is entered has more parameters.
pub fn longer_laws()
    ensures { LongerLaws }
{}
