//! Laws of histories over loaded versions.

ghost use Rattle.st_change.specs.StoreLaws.{Promises};
ghost use Rattle.thread_laws.specs.Threads.{ThreadLaws, SerialCores, AcceptedThreads};

use st_change::Judge;

/// One play in the terms of versions is one play of the meaning, on the store that the bytes spell. So the entries of every legal history
/// behind a first load are those of a run on one thread, which ends in what the core has; where all plays have theirs, they interleave the
/// phases, and where tasks of a phase share no region that one of them writes, each list has those that it has in any such run.
pub fn thread_laws<J: Judge>()
    ensures threads { ThreadLaws J.accepts J.refuses }
    ensures serial { Promises J.accepts → SerialCores J.accepts J.refuses }
{}

/// A version of an accepted program with its footprints is right, and disjoint equals serial, with nothing more asked of the programs.
pub fn accepted_threads()
    ensures { AcceptedThreads }
{}
