//! Laws of refusals.

ghost use Rattle.st_unit_rules.specs.RefusalLaws.{RefusalLaws};

/// A unit breaks no rule and has a configuration, or is refused, not both, and for one code in one declaration at one line.
pub fn refusal_laws()
    ensures { RefusalLaws }
{}
