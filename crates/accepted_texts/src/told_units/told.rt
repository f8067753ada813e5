//! Laws of units that break no rule.

ghost use Rattle.accepted_texts.specs.told_units.Told.{ToldUnitLaws};

/// In a unit that breaks no rule all is told that is written in it, in every scope; and each unit has a checked program.
pub fn told_unit_laws()
    ensures { ToldUnitLaws }
{}
