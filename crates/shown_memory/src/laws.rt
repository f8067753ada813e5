//! Laws of sizes.

ghost use Rattle.shown_memory.specs.Laws.{SizeLaws};

/// What lies at a place is as large as the code takes a value of its type to be.
pub fn size_laws()
    ensures { SizeLaws }
{}
