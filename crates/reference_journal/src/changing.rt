//! A change of the running program.

ghost use Rattle.std.specs.Prelude.{◌≡◌, ℕ, List, IfOk, Some, slice_get};
ghost use Rattle.cycle_journal.specs.declared.play.Play.TheVariants as play;
ghost use Rattle.st_change.specs.Change as words;
ghost use Rattle.st_values.specs.Value.{Store};
ghost use Rattle.st_values.specs.View.{program_of};
ghost use Rattle.value_trees.specs.Value.{members_of as store_of};
ghost use Rattle.region_instances.specs.Instances.{RegionsUnfold};
ghost use Rattle.reference_tasks.specs.Loaded.{IsLoaded};
ghost use Rattle.reference_plays.specs.Controller.{IsPlan, controller_of};
ghost use Rattle.reference_change.specs.Changed.{changed};
ghost use Rattle.reference_journal.specs.Private.Changing.{Changes, NextUnfolds};
ghost use Rattle.reference_journal.specs.Private.Versions.{state_of};
ghost use Rattle.reference_journal.specs.Private.Changed.{ChangedTo, IsLoadedAs};
ghost use Rattle.reference_journal.specs.Private.Tables.{AreTables};

use crate::loading::{let_go, refusal_of};
use crate::next::{Change, Version};
use console_command::Checker;
use plc_text::{Denied, NoMemory, Series, Text};
use program_tables::{Members, ProgramTables, members_of};
use reference_change::{Changed, change};
use reference_hooks::Stopped;
use reference_plays::{Controller, Plan, gone_behind};
use reference_tasks::Loaded;
use routine_tables::{RoutineTables, routine_tables};
use st_tree::Program;
use std::alloc::Global;
use value_trees::Member;

/// The store behind a change to a program with its tables.
fn change_by(
    alloc: Global,
    before: &Loaded<'_>,
    program: &Program,
    tables: &ProgramTables,
    members: &Members<'_>,
    routines: &RoutineTables<'_>,
    store: &Series<Member>,
) -> Result<Changed, NoMemory>
    requires before { IsLoaded before.now }
    requires tables { AreTables program.now tables.now members.now routines.now }
    ensures { IfOk result (λ x. changed x ≡ words.change (program_of before.now.tables.now) (program_of program.now) (store_of store.now)) }
{
    let on = Loaded {
        alloc,
        program,
        tables,
        members,
        routines,
    };
    let came = change(before, &on, store);
    let_go(on);
    let came = came?;
    Ok(came)
}

/// The store behind a change to a program.
fn changed_store(
    alloc: Global,
    before: &Loaded<'_>,
    program: &Program,
    store: &Series<Member>,
) -> Result<Changed, NoMemory>
    requires { IsLoaded before.now }
    ensures { IfOk result (λ x. changed x ≡ words.change (program_of before.now.tables.now) (program_of program.now) (store_of store.now)) }
{
    let tables = ProgramTables::build(alloc, program)?;
    let members = members_of(alloc, program)?;
    let routines = routine_tables(alloc, &tables, program)?;
    let came = change_by(alloc, before, program, &tables, &members, &routines, store)?;
    Ok(came)
}

/// What the controller holds once a program is loaded with this store.
fn loaded(
    alloc: Global,
    plan: &Plan<'_>,
    c: &Controller,
    program: &Program,
    store: Series<Member>,
) -> Result<Controller, NoMemory>
    requires { IsPlan plan.now }
    ensures { IfOk result (λ next. IsLoadedAs (controller_of plan.now c.now) (program_of program.now) (store_of store) (state_of program.now next)) }
{
    let Some(version) = c.version.checked_add(1) else {
        return Err(NoMemory);
    };
    let gone = gone_behind(alloc, version, plan.on.program, program, &c.gone)?;
    Ok(Controller {
        version,
        store,
        held: Vec::new(alloc),
        gone,
    })
}

/// Changes the running program to this one.
fn change_to(
    alloc: Global,
    plan: &Plan<'_>,
    c: &Controller,
    program: Program,
) -> Result<Change, NoMemory>
    requires { IsPlan plan.now }
    ensures { IfOk result (λ x. ChangedTo (controller_of plan.now c.now) (program_of program) x) }
{
    match changed_store(alloc, plan.on, &program, &c.store)? {
        Changed::Ran { store, .. } => {
            let state = loaded(alloc, plan, c, &program, store)?;
            Ok(Change::Loaded(Version { program, state }))
        }
        Changed::Stopped(stopped) => {
            let Stopped { class, fault } = stopped;
            Ok(Change::Refused(refusal_of(class, fault)))
        }
    }
}

/// Changes the running program to the one of a text. Where memory is wanting, as where the text is refused, nothing changes. Nothing bounds
/// the machine's stack in the hooks.
pub fn play_change<J: Checker>(
    alloc: Global,
    plan: &Plan<'_>,
    c: &Controller,
    text: &Text,
) -> Result<Change, NoMemory>
    requires { IsPlan plan.now }
    ensures step { IfOk result (λ x. (sources : List (List ℕ)) (name : List ℕ) (source : ℕ) → slice_get sources source ≡ Some text.now
        → Changes J.accepts J.refuses sources (controller_of plan.now c.now) (play.Change name source) x) }
    ensures unfold { IfOk result NextUnfolds }
{
    match J::check(alloc, text) {
        Ok(program) => {
            let came = change_to(alloc, plan, c, program)?;
            Ok(came)
        }
        Err(Denied::Refused(refusal)) => Ok(Change::Refused(refusal)),
        Err(Denied::NoMemory) => Err(NoMemory),
    }
}
