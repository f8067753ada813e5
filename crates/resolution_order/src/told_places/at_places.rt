//! Laws of what is told at a place.

ghost use Rattle.resolution_order.specs.told_places.PlaceLaws.{LocalPlaceLaws, PlaceLaws};

/// What can be told of the declaration at a place may be told; where of no declaration more can be told, all is told.
pub fn place_laws()
    ensures { PlaceLaws }
{}

/// The same of the constants among the locals of a routine or a program.
pub fn local_place_laws()
    ensures { LocalPlaceLaws }
{}
