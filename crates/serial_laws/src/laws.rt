//! Laws of runs whose phases are disjoint.

ghost use Rattle.serial_laws.specs.Disjoint.{OneChange, SerialRuns};
ghost use Rattle.serial_laws.specs.Threads.{SerialThreads};
ghost use Rattle.st_change.specs.StoreLaws.{Promises};

use plant_rules::Controlled;
use st_change::Judge;

/// In the terms of versions: a run that interleaves the phases and one in which each phase is disjoint have, of each list, the same entries, and
/// end in the same state, where no change found no memory.
pub fn serial_runs<P: Controlled>()
    ensures { OneChange P.meaning → SerialRuns P.meaning }
{}

/// Of runs on one thread: the same entries of each list, the same summary, and ends that are alike: version, program, store and what is gone are the
/// same, and the same tasks are held.
pub fn serial_threads<J: Judge>()
    ensures { Promises J.accepts → SerialThreads J.accepts J.refuses }
{}
