//! One play of a cycle or of a reset.

ghost use Rattle.std.specs.Prelude.{◌≡◌, ℕ, List, IfOk};
ghost use Rattle.std.specs.List.{position_from};
ghost use Rattle.plc_text.specs.Words.{same};
ghost use Rattle.cycle_journal.specs.declared.play.Play.TheVariants as play;
ghost use Rattle.st_change.specs.OneThread as words;
ghost use Rattle.st_change.specs.OneThread.{One};
ghost use Rattle.st_values.specs.View.{program_of};
ghost use Rattle.reference_tasks.specs.Loaded.{IsLoaded};
ghost use Rattle.reference_plays.specs.Controller.{IsPlan, controller_of};
ghost use Rattle.reference_plays.specs.Private.Ran.{HasRun};

use crate::controller::{Controller, Plan};
use crate::held::{is_held, is_same, release, settle, since};
use cycle_journal::Answer;
use plc_text::{NoMemory, Series, Text, narrowed};
use reference_cycle::cycle;
use reference_tasks::Loaded;
use st_change::Judge;
use st_tree::TaskDecl;
use std::alloc::Global;
use std::mem;

/// Where a task of this name stands.
fn place_of(tasks: &[TaskDecl], name: &Text) -> Option<usize>
    ensures { result ≡ position_from (λ task. same task.name name.now) 0 tasks.now }
{
    tasks.iter().position(|task| is_same(&task.name, name))
}

/// The number of the task of this name.
fn task_named(on: &Loaded<'_>, name: &Text) -> Option<usize>
    requires { IsLoaded on.now }
    ensures { result ≡ words.task_named (program_of on.now.tables.now) name.now }
{
    place_of(on.program.tasks.as_slice(), name)
}

/// Runs a cycle of a task.
fn run_cycle(
    alloc: Global,
    plan: &Plan<'_>,
    c: &mut Controller,
    task: usize,
    name: &Text,
    moment: u32,
    input: &[u8],
) -> Result<Answer, NoMemory>
    requires { IsPlan plan.now }
    ensures { IfOk result (λ a. HasRun (controller_of plan.now c.old) task name.now moment input.now a (controller_of plan.now c.new)) }
{
    let Some(regions) = plan.footprints.get(task) else {
        return Err(NoMemory);
    };
    let number = narrowed(task)?;
    let store = mem::replace(&mut c.store, Series::new(alloc));
    let regions = regions.as_slice();
    let moment = u64::from(moment);
    let ended = cycle(plan.on, plan.located, regions, number, moment, input, store)?;
    c.store = ended.store;
    let answer = settle(alloc, &mut c.held, name, ended.reply)?;
    Ok(answer)
}

/// A cycle of the task of this name, at a moment in milliseconds, with the bytes of the input: nothing runs where there is no such task or
/// it is held, and a fault holds it. Nothing is promised of the controller where memory is wanting.
pub fn play_cycle<J: Judge>(
    alloc: Global,
    plan: &Plan<'_>,
    c: &mut Controller,
    name: &Text,
    moment: u32,
    input: &[u8],
) -> Result<Answer, NoMemory>
    requires { IsPlan plan.now }
    ensures { IfOk result (λ a. (sources : List (List ℕ)) → One J.accepts J.refuses sources (controller_of plan.now c.old) (play.Cycle name.now moment input.now) a (controller_of plan.now c.new)) }
{
    match task_named(plan.on, name) {
        Some(task) => {
            if is_held(&c.held, name) {
                return Ok(Answer::Held);
            }
            let answer = run_cycle(alloc, plan, c, task, name, moment, input)?;
            Ok(answer)
        }
        None => Ok(Answer::NoTask(since(&c.gone, name))),
    }
}

/// Releases the task of this name. Nothing is promised of the controller where memory is wanting.
pub fn play_reset<J: Judge>(
    alloc: Global,
    plan: &Plan<'_>,
    c: &mut Controller,
    name: &Text,
) -> Result<Answer, NoMemory>
    requires { IsPlan plan.now }
    ensures { IfOk result (λ a. (sources : List (List ℕ)) → One J.accepts J.refuses sources (controller_of plan.now c.old) (play.Reset name.now) a (controller_of plan.now c.new)) }
{
    match task_named(plan.on, name) {
        Some(_) => {
            release(alloc, &mut c.held, name)?;
            Ok(Answer::Released)
        }
        None => Ok(Answer::NoTask(since(&c.gone, name))),
    }
}
