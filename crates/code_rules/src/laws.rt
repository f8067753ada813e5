//! Laws of plans.

ghost use Rattle.code_rules.specs.Laws.{PlanLaws};

/// The plan of a routine has a place for each of its locals.
pub fn plan_laws()
    ensures { PlanLaws }
{}
