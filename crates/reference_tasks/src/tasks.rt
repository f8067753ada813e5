//! What the programs of a task do (IEC 61131-3:2013, 6.8.2).

ghost use Rattle.std.specs.Prelude.{◌≡◌, option_map};
ghost use Rattle.st_meaning.specs.Enter as words;
ghost use Rattle.st_values.specs.View.{program_of};
ghost use Rattle.program_tables.specs.Routine.{routine_of};
ghost use Rattle.run_state.specs.State.{Agrees, Keeps, base_of, state_of};
ghost use Rattle.reference_tasks.specs.Loaded.{IsLoaded};
ghost use Rattle.reference_tasks.specs.Private.Programs.{in_order, one_program};

use crate::entering::enter;
use crate::loaded::Loaded;
use call_steps::class_of_kind;
use plc_text::{FaultKind, Series};
use program_tables::RoutineId;
use run_state::{RunState, Stop, fault};
use st_tree::{Path, Steps};

/// Calls that may be open at once; a program's body is none.
const MOST_CALLS: u32 = 64;

/// The body of the program that a region is an instance of.
fn program_body(on: &Loaded<'_>, region: u32) -> Option<RoutineId>
    requires { IsLoaded on.now }
    ensures { option_map (routine_of on.now.tables.now) result ≡ words.program_body (program_of on.now.tables.now) region }
{
    match on.program.regions.get(region as usize) {
        Some(decl) => on.tables.body_of(class_of_kind(&decl.kind)),
        None => None,
    }
}

/// Runs the program of a region, where so many calls may be open with it.
fn run_program(
    on: &Loaded<'_>,
    m: &mut RunState,
    room: u32,
    region: u32,
    line: u32,
) -> Result<(), Stop>
    requires { IsLoaded on.now }
    ensures run { Agrees result (one_program (program_of on.now.tables.now) room region line (state_of m.old)) (state_of m.new) }
    ensures base { Keeps result (base_of m.old) (base_of m.new) }
{
    let Some(body) = program_body(on, region) else {
        return Err(fault(FaultKind::Null, line));
    };
    let steps = Steps::new(on.alloc);
    let given = Series::new(on.alloc);
    let own = Some(Path { region, steps });
    enter(on, m, room, body, own, given, line)?;
    Ok(())
}

/// Runs programs in order.
fn run_programs(
    on: &Loaded<'_>,
    m: &mut RunState,
    room: u32,
    programs: &[u32],
    line: u32,
) -> Result<(), Stop>
    requires { IsLoaded on.now }
    ensures run { Agrees result (in_order (program_of on.now.tables.now) room programs.now line (state_of m.old)) (state_of m.new) }
    ensures base { Keeps result (base_of m.old) (base_of m.new) }
{
    for region in programs {
        match run_program(on, m, room, *region, line) {
            Ok(()) => {}
            Err(stop) => return Err(stop),
        }
    }
    Ok(())
}

/// The programs of a task, as regions.
fn programs_of<'p>(on: &Loaded<'p>, task: u32) -> &'p [u32]
    requires { IsLoaded on.now }
    ensures { result.now ≡ words.programs_of (program_of on.now.tables.now) task }
{
    match on.program.tasks.get(task as usize) {
        Some(decl) => decl.programs.as_slice(),
        None => &[],
    }
}

/// Runs the programs of a task in order.
pub fn run_task(on: &Loaded<'_>, m: &mut RunState, task: u32, line: u32) -> Result<(), Stop>
    requires { IsLoaded on.now }
    ensures run { Agrees result (words.run_task (program_of on.now.tables.now) task line (state_of m.old)) (state_of m.new) }
    ensures base { Keeps result (base_of m.old) (base_of m.new) }
{
    run_programs(on, m, MOST_CALLS + 1, programs_of(on, task), line)
}
