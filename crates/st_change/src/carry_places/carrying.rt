//! Laws of places and of rows of writes.

ghost use Rattle.st_change.specs.carry_places.PlaceLaws.{PlaceLaws};
ghost use Rattle.st_change.specs.carry_places.WriteLaws.{WriteLaws};

/// Each place of a value, and of a store, that is carried gets what is carried to it alone, and one under a variable that stays is as it
/// was held. A place comes from the old value at its old path exactly where both ways are alike; numbers and enumerators go on as they are.
pub fn place_laws()
    ensures { PlaceLaws }
{}

/// What is carried, into a value or into a store, is a row of writes of single values, each of what is carried to its place alone; and any
/// row of such writes, in any order, makes it exactly where it leaves out no place.
pub fn write_laws()
    ensures { WriteLaws }
{}
