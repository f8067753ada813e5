//! What follows from the definitions of reads, writes and copies.

ghost use Rattle.mem_image.specs.Laws.{ReadsBack, LeavesValues, ReadsWithin, ReadsZero, SpellsOnce, KeepsLength, HoldsPart, LeavesParts, CopiesValues};

/// What is written is read back, and no other value changes.
pub fn value_laws()
    ensures reads_back { ReadsBack }
    ensures leaves { LeavesValues }
    ensures within { ReadsWithin }
    ensures zero { ReadsZero }
    ensures spells { SpellsOnce }
    ensures copies { CopiesValues }
{}

/// A part holds what was put over it, and no other byte changes.
pub fn part_laws()
    ensures length { KeepsLength }
    ensures holds { HoldsPart }
    ensures leaves { LeavesParts }
{}
