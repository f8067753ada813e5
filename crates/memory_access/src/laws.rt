//! Laws of the machine's memory.

ghost use Rattle.memory_access.specs.Access.{AccessLaws};

/// Where the memory shows a state, reading and writing bytes at the address of a place is reading and writing at the place.
pub fn access_laws()
    ensures { AccessLaws }
{}
