//! The tasks that are gone behind a change.

ghost use Rattle.std.specs.Prelude.{◌≡◌, ◌++◌, ◌∷◌, [], IfOk, OnOk, map};
ghost use Rattle.plc_text.specs.Words.{same};
ghost use Rattle.std.specs.List.{list_any};
ghost use Rattle.st_change.specs.OneThread as words;
ghost use Rattle.st_values.specs.View.{program_of};
ghost use Rattle.reference_plays.specs.Controller.{gone_of};

use crate::controller::Gone;
use crate::held::is_same;
use plc_text::{NoMemory, Text};
use st_tree::{Program, TaskDecl};
use std::alloc::Global;

/// Whether one of these tasks has this name.
fn has_task(tasks: &[TaskDecl], name: &Text) -> bool
    ensures { result ≡ list_any (λ task. same task.name name.now) tasks.now }
{
    tasks.iter().any(|task| is_same(&task.name, name))
}

/// Whether a program has a task of this name.
fn is_there(next: &Program, name: &Text) -> bool
    ensures { result ≡ words.has_task (program_of next.now).tasks name.now }
{
    has_task(next.tasks.as_slice(), name)
}

/// Adds a task that is gone.
fn push_gone(alloc: Global, version: u32, name: &Text, out: &mut Vec<Gone>) -> Result<(), NoMemory>
    ensures { OnOk result (map gone_of out.new.items ≡ map gone_of out.old.items ++ ((name.now, version) ∷ [])) }
{
    let name = Text::copy(alloc, name.as_str())?;
    out.push(Gone { name, version })?;
    Ok(())
}

/// Adds a task, if the next program lacks it.
fn push_removed(
    alloc: Global,
    version: u32,
    next: &Program,
    task: &TaskDecl,
    out: &mut Vec<Gone>,
) -> Result<(), NoMemory>
    ensures { OnOk result (map gone_of out.new.items ≡ map gone_of out.old.items ++ words.removed version (program_of next.now) (task.now ∷ [])) }
{
    if is_there(next, &task.name) {
        return Ok(());
    }
    push_gone(alloc, version, &task.name, out)
}

/// Adds a task that is gone, if the next program does not have it again.
fn push_still_gone(
    alloc: Global,
    next: &Program,
    task: &Gone,
    out: &mut Vec<Gone>,
) -> Result<(), NoMemory>
    ensures { OnOk result (map gone_of out.new.items ≡ map gone_of out.old.items ++ words.still_gone (program_of next.now) (gone_of task.now ∷ [])) }
{
    if is_there(next, &task.name) {
        return Ok(());
    }
    push_gone(alloc, task.version, &task.name, out)
}

/// Adds the tasks that the next program lacks.
fn push_all_removed(
    alloc: Global,
    version: u32,
    next: &Program,
    tasks: &[TaskDecl],
    out: &mut Vec<Gone>,
) -> Result<(), NoMemory>
    ensures { OnOk result (map gone_of out.new.items ≡ map gone_of out.old.items ++ words.removed version (program_of next.now) tasks.now) }
{
    for task in tasks {
        push_removed(alloc, version, next, task, out)?;
    }
    Ok(())
}

/// Adds the tasks that are gone and that the next program does not have again.
fn push_all_still_gone(
    alloc: Global,
    next: &Program,
    gone: &[Gone],
    out: &mut Vec<Gone>,
) -> Result<(), NoMemory>
    ensures { OnOk result (map gone_of out.new.items ≡ map gone_of out.old.items ++ words.still_gone (program_of next.now) (map gone_of gone.now)) }
{
    for task in gone {
        push_still_gone(alloc, next, task, out)?;
    }
    Ok(())
}

/// The tasks that are gone behind a change that loads the next program as this version: those of the program before that it lacks, and
/// those that were gone and that it does not have again.
pub fn gone_behind(
    alloc: Global,
    version: u32,
    before: &Program,
    next: &Program,
    gone: &[Gone],
) -> Result<Vec<Gone>, NoMemory>
    ensures { IfOk result (λ all. map gone_of all.items
        ≡ words.removed version (program_of next.now) (program_of before.now).tasks ++ words.still_gone (program_of next.now) (map gone_of gone.now)) }
{
    let mut all = Vec::new(alloc);
    push_all_removed(alloc, version, next, before.tasks.as_slice(), &mut all)?;
    push_all_still_gone(alloc, next, gone, &mut all)?;
    Ok(all)
}
