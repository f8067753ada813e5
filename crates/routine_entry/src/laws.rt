//! Laws of what is written before a body runs.

ghost use Rattle.routine_entry.specs.Laws.{WriteLaws};

/// The variables of an instance may be written in any order, and before or behind the frame.
pub fn write_laws()
    ensures { WriteLaws }
{}
