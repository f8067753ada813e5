//! How a routine is entered (IEC 61131-3:2013, 6.6.1.3).

ghost use Rattle.std.specs.Prelude.{◌≡◌, map};
ghost use Rattle.st_tree.specs.Statement.{statements_of};
ghost use Rattle.st_meaning.specs.Enter as words;
ghost use Rattle.st_values.specs.View.{program_of};
ghost use Rattle.program_tables.specs.Routine.{routine_of};
ghost use Rattle.call_frames.specs.Opening.{given_of, opened};
ghost use Rattle.run_state.specs.State.{Agrees, Keeps, Shows, base_of, frame_of, state_of};
ghost use Rattle.reference_values.specs.Walks.{Walks};
ghost use Rattle.reference_tasks.specs.Loaded.{IsLoaded};
ghost use Rattle.reference_tasks.specs.Private.Entered.{Entered};
ghost use Rattle.reference_tasks.specs.Private.Programs.{body_run};

use crate::loaded::Loaded;
use call_frames::{Given, open};
use plc_text::{FaultKind, Series};
use program_tables::{RoutineId, statements};
use reference_bodies::Bodies;
use reference_values::Walk;
use run_state::{Frame, RunState, Stop, fault, pop};
use st_tree::{Note, Path, Stmt};

/// The statements of a routine.
fn body_text<'p>(on: &Loaded<'p>, routine: RoutineId) -> &'p [Stmt<Note>]
    requires { IsLoaded on.now }
    ensures { statements_of result.now ≡ (routine_of on.now.tables.now routine).body }
{
    statements(on.program, routine)
}

/// Opens a call of a routine.
fn open_routine(
    on: &Loaded<'_>,
    m: &mut RunState,
    routine: RoutineId,
    own: Option<Path>,
    given: Series<Given>,
    line: u32,
) -> Result<(), Stop>
    requires { IsLoaded on.now }
    ensures run { Agrees result (opened (program_of on.now.tables.now) (routine_of on.now.tables.now routine).locals own (map given_of given) line (state_of m.old)) (state_of m.new) }
    ensures base { Keeps result (base_of m.old) (base_of m.new) }
{
    match on.routines.entry(routine) {
        Some(entry) => {
            let locals = entry.locals.as_slice();
            open(
                on.alloc, m, on.program, on.members, locals, own, given, line,
            )
        }
        None => open(on.alloc, m, on.program, on.members, &[], own, given, line),
    }
}

/// What the statements of a routine do in a call that is open, and the end of the call, by a way of entering routines.
fn run_body<
    F: Fn(&mut RunState, RoutineId, Option<Path>, Series<Given>, u32) -> Result<Frame, Stop> + Drop,
>(
    on: &Loaded<'_>,
    m: &mut RunState,
    room: u32,
    enter: F,
    routine: RoutineId,
    line: u32,
) -> Result<Frame, Stop>
    requires loaded { IsLoaded on.now }
    requires walks { Walks on.now.tables.now on.now.routines.now room (F.pre enter) (F.post enter) }
    ensures run { Shows frame_of result (body_run (program_of on.now.tables.now) room (routine_of on.now.tables.now routine) line (state_of m.old)) (state_of m.new) }
    ensures base { Keeps result (base_of m.old) (base_of m.new) }
{
    let bodies = Bodies {
        walk: Walk {
            alloc: on.alloc,
            tables: on.tables,
            routines: on.routines,
            room,
            enter,
        },
    };
    bodies.effects(m, body_text(on, routine), line)?;
    pop(m, line)
}

/// Enters a routine on an instance with what is given, where so many calls may be open with it: the depth, the inputs, the in-outs, the
/// body. Nothing bounds the machine's stack here.
pub fn enter(
    on: &Loaded<'_>,
    m: &mut RunState,
    room: u32,
    routine: RoutineId,
    own: Option<Path>,
    given: Series<Given>,
    line: u32,
) -> Result<Frame, Stop>
    requires { IsLoaded on.now }
    ensures run { Shows frame_of result (words.enter (program_of on.now.tables.now) room (routine_of on.now.tables.now routine) own (map given_of given) line (state_of m.old)) (state_of m.new) }
    ensures base { Keeps result (base_of m.old) (base_of m.new) }
{
    if room == 0 {
        return Err(fault(FaultKind::Depth, line));
    }
    let below = room - 1;
    open_routine(on, m, routine, own, given, line)?;
    let deeper = |m: &mut RunState, routine: RoutineId, own: Option<Path>, given: Series<
        Given,
    >, line: u32| -> Result<Frame, Stop>
        requires { IsLoaded on.now }
        ensures { Entered on.entry.now.tables.now below routine own given line m.old result m.new }
    { enter(on, m, below, routine, own, given, line) };
    run_body(on, m, below, deeper, routine, line)
}
