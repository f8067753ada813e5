//! Laws of names.

ghost use Rattle.name_laws.specs.NameLaws.{NameLaws};

/// The methods and the fields that names mean in a unit are those of its checked program.
pub fn name_laws()
    ensures { NameLaws }
{}
