//! A routine with the code of a checked program's routine is valid.

ghost use Rattle.valid_emitted.specs.Laws.{RoutineValidity};

/// The routines of a program that is right are valid, whatever their tables.
pub fn valid_emitted_laws()
    ensures { RoutineValidity }
{}
