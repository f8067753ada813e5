//! Laws of the sizes of programs, of their outputs and of the locals of calls.

ghost use Rattle.accepted_texts.specs.sized_units.Sized.{SizedUnitLaws};

/// The checked program of a good unit that is formed is sized, and so is that of each source that is accepted: its regions are few, each
/// has a shape of which all parts are small, its counts have 32 bits, and each task has a program. Its outputs end within 256 bytes, and no
/// two of them share a bit; the locals of a call have at most 1,024 values. Where it keeps its promise, its initial values are in range, and
/// its outputs are bytes.
pub fn sized_unit_laws()
    ensures { SizedUnitLaws }
{}
