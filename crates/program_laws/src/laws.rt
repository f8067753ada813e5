//! Laws of accepted programs.

ghost use Rattle.program_laws.specs.Cycles.{AcceptedCycles};
ghost use Rattle.program_laws.specs.Stores.{AcceptedStores};
ghost use Rattle.program_laws.specs.Paths.{AcceptedPaths};
ghost use Rattle.program_laws.specs.Layouts.{AcceptedLayouts};

/// A cycle of an accepted program touches nothing but its footprint, changes nothing but what the task writes, and keeps good stores good.
pub fn accepted_cycles()
    ensures { AcceptedCycles }
{}

/// Its store is good at the beginning, behind the first load, behind a change, and behind each play of a run.
pub fn accepted_stores()
    ensures { AcceptedStores }
{}

/// No name of a region, or of a part of one, stands twice in it, and none is paired twice with one of another: so paths before and after a
/// change are each other's inverse, and a change to itself, where nothing is marked, changes nothing.
pub fn accepted_paths()
    ensures { AcceptedPaths }
{}

/// Its regions can be laid out, and what a layout, first images and footprints ask of it holds.
pub fn accepted_layouts()
    ensures { AcceptedLayouts }
{}
