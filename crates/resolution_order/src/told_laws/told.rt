//! Laws of what is told of names.

ghost use Rattle.resolution_order.specs.told_laws.LocalLaws.{LocalLaws};
ghost use Rattle.resolution_order.specs.told_laws.TellingLaws.{TellingLaws};
ghost use Rattle.resolution_order.specs.told_laws.ToldLaws.{ToldLaws};

/// What is found from more that is told is no less; each round tells no less than the one before, and one more than the last tells nothing.
pub fn told_laws()
    ensures { ToldLaws }
{}

/// Types and constants may be told one by one, in any order; once no more can be told, all is told that the unit says of its names.
pub fn telling_laws()
    ensures { TellingLaws }
{}

/// The same of the constants among the locals of a function, a method or a program.
pub fn local_laws()
    ensures { LocalLaws }
{}
