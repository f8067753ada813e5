//! One hook of an instance.

ghost use Rattle.std.specs.Prelude.{◌≡◌, ◌∷◌, [], Some, map};
ghost use Rattle.st_change.specs.Hook as words;
ghost use Rattle.st_values.specs.View.{program_of};
ghost use Rattle.program_tables.specs.Routine.{routine_of};
ghost use Rattle.call_frames.specs.Opening.{given_of};
ghost use Rattle.run_state.specs.State.{Shows, frame_of, state_of};
ghost use Rattle.value_trees.specs.Value as trees;
ghost use Rattle.reference_tasks.specs.Loaded.{IsLoaded};
ghost use Rattle.reference_hooks.specs.Hooks.{RanAs};
ghost use Rattle.reference_hooks.specs.Tables.{AreOwn};
ghost use Rattle.reference_hooks.specs.Private.Hooks.{Stops, hook_call, hook_of, when_of};

use crate::given::give_flags;
use crate::tables::{When, hook_at};
use plc_text::{Fault, NoMemory, Series, Text};
use program_tables::{RoutineId, line, name};
use reference_tasks::{Loaded, enter};
use run_state::{Frame, Log, RunState, Stop, spend};
use st_tree::Path;
use std::alloc::Global;
use value_trees::copy_path;

/// Calls that may be open at once; a hook is one.
const MOST_CALLS: u32 = 64;

/// An instance, by where it stands and the number of its class.
#[derive(Drop)]
pub struct Instance {
    pub path: Path,
    pub class: u32,
}

/// A fault in a hook, with the name of the class that declares it.
#[derive(Drop)]
pub struct Stopped {
    pub class: Text,
    pub fault: Fault,
}

/// Why hooks stop.
#[derive(Drop)]
pub enum Halt {
    Stopped(Stopped),
    NoMemory,
}

/// A tick, and the call of a hook on an instance, where so many calls may be open with it.
fn call_hook(
    on: &Loaded<'_>,
    m: &mut RunState,
    room: u32,
    hook: RoutineId,
    own: &Path,
    flags: &[bool],
    line: u32,
) -> Result<Frame, Stop>
    requires { IsLoaded on.now }
    ensures { Shows frame_of result (hook_call (program_of on.now.tables.now) room (routine_of on.now.tables.now hook) own.now flags.now line (state_of m.old)) (state_of m.new) }
{
    spend(m, line)?;
    let Ok(path) = copy_path(on.alloc, own) else {
        return Err(Stop::NoMemory);
    };
    let Ok(given) = give_flags(on.alloc, on.routines.parameters(hook), flags) else {
        return Err(Stop::NoMemory);
    };
    enter(on, m, room, hook, Some(path), given, line)
}

/// The state with which a hook begins: its call is the first open one, and the moment is 0.
fn begin(alloc: Global, m: &mut RunState)
    ensures { state_of m.new ≡ record { store = trees.members_of m.old.store; frames = []; ticks = m.old.ticks; now = 0 } }
{
    m.frames = Series::new(alloc);
    m.undo = Log::new(alloc);
    m.moment = 0;
}

/// Why hooks stop, where a call of a hook of this class did.
fn halted(on: &Loaded<'_>, class: u32, stop: Stop) -> Halt
    requires { IsLoaded on.now }
    ensures { Stops (words.class_name (program_of on.now.tables.now) class) stop result }
{
    match stop {
        Stop::Fault(fault) => {
            let class = name(on.program, RoutineId::Body(class));
            match Text::copy(on.alloc, class) {
                Ok(class) => Halt::Stopped(Stopped { class, fault }),
                Err(NoMemory) => Halt::NoMemory,
            }
        }
        Stop::NoMemory => Halt::NoMemory,
    }
}

/// Runs the hook of a class on an instance.
fn run_hook(
    on: &Loaded<'_>,
    m: &mut RunState,
    when: When,
    class: u32,
    hook: RoutineId,
    own: &Path,
    flags: &[bool],
) -> Result<(), Halt>
    requires { IsLoaded on.now }
    ensures { RanAs result (words.run_hook (program_of on.now.tables.now) (hook_of (when_of when) own.now flags.now class) (Some (routine_of on.now.tables.now hook)) (trees.members_of m.old.store) m.old.ticks) m.new }
{
    begin(on.alloc, m);
    let line = line(on.program, hook);
    match call_hook(on, m, MOST_CALLS, hook, own, flags, line) {
        Ok(_) => Ok(()),
        Err(stop) => Err(halted(on, class, stop)),
    }
}

/// Runs the hook that a class declares itself, if it does, on an instance.
pub fn run_own(
    on: &Loaded<'_>,
    ids: &[Option<RoutineId>],
    m: &mut RunState,
    when: When,
    class: u32,
    own: &Path,
    flags: &[bool],
) -> Result<(), Halt>
    requires loaded { IsLoaded on.now }
    requires own_hooks { AreOwn on.now.tables.now (when_of when) ids.now }
    ensures { RanAs result (words.run_hooks (program_of on.now.tables.now) (words.hooks_along (program_of on.now.tables.now) (when_of when) own.now flags.now (class ∷ [])) (trees.members_of m.old.store) m.old.ticks) m.new }
{
    match hook_at(ids, class) {
        Some(hook) => run_hook(on, m, when, class, hook, own, flags),
        None => Ok(()),
    }
}
