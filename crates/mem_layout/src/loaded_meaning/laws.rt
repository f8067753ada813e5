//! Laws of loaded versions.

ghost use Rattle.plant_rules.specs.Meaning.{Frames};
ghost use Rattle.mem_layout.specs.loaded_meaning.Version.{meaning};

use st_change::Judge;

/// A cycle depends on the task's footprint alone and changes what the task writes; a change gives whole contents of the next version.
pub fn loaded_laws<J: Judge>()
    ensures { Frames (meaning J.accepts J.refuses) }
{}
