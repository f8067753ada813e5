//! Plays over one version of the program and the next ones, and the first load before them.

ghost use Rattle.std.specs.Prelude.{◌≡◌, ◌<◌, ◌≤◌, ℕ, List, length, IfNone, IfOk, OnSome};
ghost use Rattle.std.specs.Map.{values_of};
ghost use Rattle.st_values.specs.View.{program_of};
ghost use Rattle.st_meaning.specs.ProcessImage.{located_of as located_of_words};
ghost use Rattle.region_instances.specs.Instances.{RegionsUnfold};
ghost use Rattle.process_image.specs.Located.{all_seen};
ghost use Rattle.reference_tasks.specs.Loaded.{IsLoaded};
ghost use Rattle.value_trees.specs.Value.{members_of as store_of};
ghost use Rattle.reference_journal.specs.Playing.{IsPlayed};
ghost use Rattle.reference_journal.specs.Private.Versions.{state_of};
ghost use Rattle.reference_journal.specs.Private.Footprints.{AreFootprints};
ghost use Rattle.reference_journal.specs.Private.Running.{behind, first, NextsUnfold, RunsFrom, RunsOn};
ghost use Rattle.reference_journal.specs.Private.Tables.{AreTables};

use crate::loading::{First, first_store, footprints_of, let_go};
use crate::next::Version;
use crate::played::Played;
use crate::playing::play_version;
use console_command::Checker;
use cycle_journal::{Entry, Play};
use plc_text::{Items, NoMemory, Series, Text};
use process_image::{Located, located_of};
use program_tables::{Members, ProgramTables, members_of};
use reference_plays::{Controller, Plan};
use reference_tasks::Loaded;
use routine_tables::{RoutineTables, routine_tables};
use st_names::Names;
use st_tree::Program;
use std::alloc::Global;
use value_trees::Member;

/// The version that is loaded first.
const FIRST_VERSION: u32 = 1;

/// Plays on with a program, its tables, the variables that have addresses and the footprints of its tasks.
fn play_planned<J: Checker>(
    on: &Loaded<'_>,
    located: &[Located<'_>],
    footprints: &[Vec<u32>],
    c: &mut Controller,
    sources: &Names<Text>,
    plays: &[Play],
    entries: &mut Items<Entry>,
) -> Result<Option<Version>, NoMemory>
    requires loaded { IsLoaded on.now }
    requires located { all_seen located.now ≡ located_of_words (program_of on.now.tables.now) }
    requires footprints { AreFootprints (program_of on.now.tables.now) footprints.now }
    ensures run { IfOk result (λ next. RunsOn J.accepts J.refuses (values_of sources.now) plays.now entries.old (state_of on.now.tables.now c.old) entries.new (behind next (state_of on.now.tables.now c.new))) }
    ensures unfold { IfOk result NextsUnfold }
    ensures further { IfOk result (λ next. OnSome next (length entries.old < length entries.new)) }
    ensures whole { IfOk result (λ next. IfNone next (length plays.now ≤ length entries.new)) }
{
    let plan = Plan {
        on,
        located,
        footprints,
    };
    let came = play_version::<J>(on.alloc, &plan, c, sources, plays, entries);
    let Plan {
        on: _on,
        located: _located,
        footprints: _footprints,
    } = plan;
    let next = came?;
    Ok(next)
}

/// The same with the tables of the program.
fn play_by<J: Checker>(
    alloc: Global,
    program: &Program,
    tables: &ProgramTables,
    members: &Members<'_>,
    routines: &RoutineTables<'_>,
    c: &mut Controller,
    sources: &Names<Text>,
    plays: &[Play],
    entries: &mut Items<Entry>,
) -> Result<Option<Version>, NoMemory>
    requires tables { AreTables program.now tables.now members.now routines.now }
    requires unfold { RegionsUnfold (program_of program.now) }
    ensures run { IfOk result (λ next. RunsOn J.accepts J.refuses (values_of sources.now) plays.now entries.old (state_of program.now c.old) entries.new (behind next (state_of program.now c.new))) }
    ensures unfold { IfOk result NextsUnfold }
    ensures further { IfOk result (λ next. OnSome next (length entries.old < length entries.new)) }
    ensures whole { IfOk result (λ next. IfNone next (length plays.now ≤ length entries.new)) }
{
    let located = located_of(alloc, program, members)?;
    let footprints = footprints_of(alloc, program)?;
    let on = Loaded {
        alloc,
        program,
        tables,
        members,
        routines,
    };
    let came = play_planned::<J>(
        &on,
        located.as_slice(),
        footprints.as_slice(),
        c,
        sources,
        plays,
        entries,
    );
    let_go(on);
    let next = came?;
    Ok(next)
}

/// Plays on with a program, up to a change that loads another one.
fn play_program<J: Checker>(
    alloc: Global,
    program: &Program,
    c: &mut Controller,
    sources: &Names<Text>,
    plays: &[Play],
    entries: &mut Items<Entry>,
) -> Result<Option<Version>, NoMemory>
    requires unfold { RegionsUnfold (program_of program.now) }
    ensures run { IfOk result (λ next. RunsOn J.accepts J.refuses (values_of sources.now) plays.now entries.old (state_of program.now c.old) entries.new (behind next (state_of program.now c.new))) }
    ensures unfold { IfOk result NextsUnfold }
    ensures further { IfOk result (λ next. OnSome next (length entries.old < length entries.new)) }
    ensures whole { IfOk result (λ next. IfNone next (length plays.now ≤ length entries.new)) }
{
    let tables = ProgramTables::build(alloc, program)?;
    let members = members_of(alloc, program)?;
    let routines = routine_tables(alloc, &tables, program)?;
    let next = play_by::<J>(
        alloc, program, &tables, &members, &routines, c, sources, plays, entries,
    )?;
    Ok(next)
}

/// The entries of all plays, from a version on.
fn play_versions<J: Checker>(
    alloc: Global,
    version: Version,
    sources: &Names<Text>,
    plays: &[Play],
) -> Result<Items<Entry>, NoMemory>
    requires unfold { RegionsUnfold (program_of version.program) }
    ensures { IfOk result (λ entries. RunsFrom J.accepts J.refuses (values_of sources.now) (state_of version.program version.state) plays.now entries) }
{
    let mut running = version;
    let mut entries = Items::new(alloc);
    'versions: while entries.len() < plays.len() {
        let next = play_program::<J>(
            alloc,
            &running.program,
            &mut running.state,
            sources,
            plays,
            &mut entries,
        )?;
        if let Some(next) = next {
            running = next;
        }
    }
    Ok(entries)
}

/// The first version of a program that is loaded with this store.
fn first_version(alloc: Global, program: Program, store: Series<Member>) -> Version
    ensures program { result.program ≡ program }
    ensures state { state_of program result.state ≡ first (program_of program) (store_of store) }
{
    Version {
        program,
        state: Controller {
            version: FIRST_VERSION,
            store,
            held: Vec::new(alloc),
            gone: Vec::new(alloc),
        },
    }
}

/// Loads a program for the first time and plays the plays in their order, each with its entry, on one thread; a change loads the program of
/// a source in place of the one that runs. Where `J` accepts a text as the program, the entries are those of a run on one thread of the
/// text. The types of the regions are to unfold, as those of each accepted program do. Nothing bounds the machine's stack in the program's
/// calls.
pub fn play_all<J: Checker>(
    alloc: Global,
    program: Program,
    sources: &Names<Text>,
    plays: &[Play],
) -> Result<Played, NoMemory>
    requires { RegionsUnfold (program_of program) }
    ensures { IfOk result (λ played. (text : List ℕ) → J.accepts text (program_of program) → IsPlayed J.accepts J.refuses (values_of sources.now) text (program_of program) plays.now played) }
{
    match first_store(alloc, &program)? {
        First::Loaded(store) => {
            let version = first_version(alloc, program, store);
            let entries = play_versions::<J>(alloc, version, sources, plays)?;
            Ok(Played::Entries(entries))
        }
        First::Refused(refusal) => Ok(Played::Refused(refusal)),
    }
}
