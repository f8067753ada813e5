//! Laws of runs of a program's code.

ghost use Rattle.task_runs.specs.Laws.{TaskLaws};

/// The runs of a task's programs, and that of a hook, end as the meaning says: with its ticks and its store, or with its fault.
pub fn task_laws()
    ensures { TaskLaws }
{}
