//! Laws of the definitions.

ghost use Rattle.st_meaning.specs.Laws.{TicksFall, LoopsUnroll, FaultsLeave};

/// Ticks are never made, loops are their unrollings, and a cycle that faults leaves the store.
pub fn run_laws()
    ensures ticks { TicksFall }
    ensures loops { LoopsUnroll }
    ensures faults { FaultsLeave }
{}
