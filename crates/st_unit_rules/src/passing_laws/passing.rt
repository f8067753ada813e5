//! Laws of passing declarations.

ghost use Rattle.st_unit_rules.specs.passing_laws.PassingLaws.{PassingLaws};

/// Where all declarations were passed and broke nothing, the unit breaks nothing, and those of each sort are the unit's; the first that breaks
/// a rule is the first bad one of the unit.
pub fn passing_laws()
    ensures { PassingLaws }
{}
