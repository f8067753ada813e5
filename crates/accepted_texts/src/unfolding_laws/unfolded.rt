//! Laws of what types of checked programs unfold to.

ghost use Rattle.accepted_texts.specs.unfolding_laws.UnfoldingLaws.{UnfoldingLaws};

/// In the checked program of a unit that breaks no rule, the type of each region has a shape.
pub fn unfolding_laws()
    ensures { UnfoldingLaws }
{}
