//! Laws of declarations.

ghost use Rattle.declaration_laws.specs.DeclarationLaws.{DeclarationLaws};

/// In the checked program of a good unit that is formed each region, and each local of a method or a function, has a type that unfolds and
/// begins in range; constants are numbers of their types; and a class that has an instance has all methods that its interfaces ask for.
pub fn declaration_laws()
    ensures { DeclarationLaws }
{}
