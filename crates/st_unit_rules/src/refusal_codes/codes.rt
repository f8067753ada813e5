//! Laws of the codes that units are refused for.

ghost use Rattle.st_unit_rules.specs.refusal_codes.RefusalCodes.{RefusalCodes};

/// No rule that a declaration breaks, and no refusal of a unit, has the code E17.
pub fn refusal_codes()
    ensures { RefusalCodes }
{}
