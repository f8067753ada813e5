//! Laws of classes as they are seen.

ghost use Rattle.class_laws.specs.ClassLaws.{ClassLaws};

/// Classes as they are seen have the chains, the variables and the parameters that are promised.
pub fn class_laws()
    ensures { ClassLaws }
{}
