//! Laws of changes.

ghost use Rattle.st_change.specs.Laws.{PathLaws};
ghost use Rattle.st_change.specs.CarryLaws.{CarryLaws};
ghost use Rattle.st_change.specs.StoreLaws.{StoreLaws};
ghost use Rattle.st_change.specs.SameLaws.{SameLaws};

/// Paths before and after a change are each other's inverse, and counterparts name each other.
pub fn path_laws()
    ensures { PathLaws }
{}

/// What a new place gets fits it, and a store into which regions are carried stays good.
pub fn carry_laws()
    ensures { CarryLaws }
{}

/// Stores stay good: after a first load, and after a change with its hooks.
pub fn store_laws()
    ensures { StoreLaws }
{}

/// A change of a program to itself, where no variable is marked, keeps each region, calls no hook, and leaves the store.
pub fn same_laws()
    ensures { SameLaws }
{}
