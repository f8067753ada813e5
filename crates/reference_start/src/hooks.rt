//! The hooks of instances at the first load: FB_init of each class of the chain that declares one, base first.

ghost use Rattle.std.specs.Prelude.{◌≡◌, ◌++◌, ◌∷◌, [], IfOk, OnOk, Some, false, map, option_map, slice_get};
ghost use Rattle.std.specs.List.{position_from};
ghost use Rattle.st_meaning.specs.Call as calls;
ghost use Rattle.st_meaning.specs.Operation.{truth};
ghost use Rattle.st_change.specs.Hook as words;
ghost use Rattle.st_values.specs.Program.{own_method};
ghost use Rattle.st_values.specs.View.{program_of};
ghost use Rattle.program_tables.specs.Routine.{members_of, routine_of};
ghost use Rattle.call_frames.specs.Opening.{given_of};
ghost use Rattle.routine_tables.specs.Parameters.{parameters_of, recipient_of};
ghost use Rattle.run_state.specs.State.{Shows, frame_of, state_of};
ghost use Rattle.value_trees.specs.Value as trees;
ghost use Rattle.value_trees.specs.Value.{value_of};
ghost use Rattle.reference_tasks.specs.Loaded.{IsLoaded};
ghost use Rattle.reference_start.specs.Private.Hooks.{AreInits, RanAs, Stops, all_inits, hook_call, id_at, init_of, inits_along, inits_at, is_init};
ghost use Rattle.reference_start.specs.Private.Instances.{all_of, instance_of};

use crate::instances::Instance;
use call_frames::Given;
use call_steps::given_value;
use plc_text::{Fault, NoMemory, Series, Text, narrowed};
use program_tables::{RoutineId, line, name};
use reference_tasks::{Loaded, enter};
use routine_tables::{Parameter, Recipient};
use run_state::{Frame, Log, RunState, Stop, spend};
use st_tree::{Member, Note, Path, Program};
use std::alloc::Global;
use value_trees::{Value, copy_path};

/// Calls that may be open at once; a hook is one.
const MOST_CALLS: u32 = 64;

/// A fault in a hook, with the name of the class that declares it.
#[derive(Drop)]
pub struct Stopped {
    pub class: Text,
    pub fault: Fault,
}

/// Why hooks stop.
#[derive(Drop)]
pub enum Halt {
    Stopped(Stopped),
    NoMemory,
}

/// Whether a member is the hook.
fn is_init(member: &Member<Note>) -> bool
    ensures { result ≡ is_init member.now }
{
    match member {
        Member::Method(method) => method.name.text.as_str() == "FB_INIT",
        Member::Section(_) => false,
    }
}

/// Where the hook stands among the members of a class.
fn init_place(members: &[Member<Note>]) -> Option<usize>
    ensures { result ≡ position_from is_init 0 members.now }
{
    members.iter().position(|member| is_init(member))
}

/// The members of a class; a program has none.
fn members_at(program: &Program, class: u32) -> &[Member<Note>]
    ensures { result.now ≡ members_of (slice_get program.now.classes class) }
{
    match program.classes.get(class as usize) {
        Some(decl) => decl.members.as_slice(),
        None => &[],
    }
}

/// The hook that a class declares itself.
fn own_init(program: &Program, class: u32) -> Result<Option<RoutineId>, NoMemory>
    ensures { IfOk result (λ id. option_map (routine_of program.now) id ≡ own_method (program_of program.now) (words.hook_name words.at_init) class) }
{
    match init_place(members_at(program, class)) {
        Some(k) => {
            let place = narrowed(k)?;
            Ok(Some(RoutineId::Method(class, place)))
        }
        None => Ok(None),
    }
}

/// The hooks that classes declare themselves, by the numbers of the classes.
pub fn own_inits(alloc: Global, program: &Program) -> Result<Vec<Option<RoutineId>>, NoMemory>
    ensures { IfOk result (λ ids. AreInits program.now ids.items) }
{
    let mut ids = Vec::new(alloc);
    for c in 0..program.classes.len() {
        let class = narrowed(c)?;
        let id = own_init(program, class)?;
        ids.push(id)?;
    }
    Ok(ids)
}

/// The hook of the class of this number.
fn init_at(ids: &[Option<RoutineId>], class: u32) -> Option<RoutineId>
    ensures { result ≡ id_at (slice_get ids.now class) }
{
    match ids.get(class as usize) {
        Some(id) => *id,
        None => None,
    }
}

#[tactic(auto, using(value_trees::specs::Value::value_views))]
fn truth_value(flag: bool) -> Value
    ensures { value_of result ≡ truth flag }
{
    if flag {
        Value::Number(1)
    } else {
        Value::Number(0)
    }
}

/// Adds what an input is given.
fn push_flag(given: &mut Series<Given>, to: Recipient, flag: bool) -> Result<(), NoMemory>
    ensures { OnOk result (map given_of given.new ≡ map given_of given.old ++ (calls.given_value (recipient_of to) (truth flag) ∷ [])) }
{
    given.push(given_value(to, truth_value(flag)))
}

/// What a hook of a first load is given: that nothing is copied.
fn first_flags(alloc: Global, parameters: &[Parameter]) -> Result<Series<Given>, NoMemory>
    ensures { IfOk result (λ given. map given_of given ≡ words.given_flags (parameters_of parameters.now) (words.init_flags false)) }
{
    let mut given = Series::new(alloc);
    let Some((first, behind)) = parameters.split_first() else {
        return Ok(given);
    };
    push_flag(&mut given, first.to, true)?;
    let Some((second, _)) = behind.split_first() else {
        return Ok(given);
    };
    push_flag(&mut given, second.to, false)?;
    Ok(given)
}

/// A tick, and the call of a hook on an instance, where so many calls may be open with it.
fn call_hook(
    on: &Loaded<'_>,
    m: &mut RunState,
    room: u32,
    hook: RoutineId,
    own: &Path,
    line: u32,
) -> Result<Frame, Stop>
    requires { IsLoaded on.now }
    ensures { Shows frame_of result (hook_call (program_of on.now.tables.now) room (routine_of on.now.tables.now hook) own.now line (state_of m.old)) (state_of m.new) }
{
    spend(m, line)?;
    let Ok(path) = copy_path(on.alloc, own) else {
        return Err(Stop::NoMemory);
    };
    let Ok(given) = first_flags(on.alloc, on.routines.parameters(hook)) else {
        return Err(Stop::NoMemory);
    };
    enter(on, m, room, hook, Some(path), given, line)
}

/// The state with which a hook begins: its call is the first open one, and the moment is 0.
fn begin(alloc: Global, m: &mut RunState)
    ensures { state_of m.new ≡ record { store = trees.members_of m.old.store; frames = []; ticks = m.old.ticks; now = 0 } }
{
    m.frames = Series::new(alloc);
    m.undo = Log::new(alloc);
    m.moment = 0;
}

/// Why hooks stop, where a call of a hook of this class did.
fn halted(on: &Loaded<'_>, class: u32, stop: Stop) -> Halt
    requires { IsLoaded on.now }
    ensures { Stops (words.class_name (program_of on.now.tables.now) class) stop result }
{
    match stop {
        Stop::Fault(fault) => {
            let class = name(on.program, RoutineId::Body(class));
            match Text::copy(on.alloc, class) {
                Ok(class) => Halt::Stopped(Stopped { class, fault }),
                Err(NoMemory) => Halt::NoMemory,
            }
        }
        Stop::NoMemory => Halt::NoMemory,
    }
}

/// Runs the hook of a class on an instance.
fn run_hook(
    on: &Loaded<'_>,
    m: &mut RunState,
    class: u32,
    hook: RoutineId,
    own: &Path,
) -> Result<(), Halt>
    requires { IsLoaded on.now }
    ensures { RanAs result (words.run_hook (program_of on.now.tables.now) (init_of own.now class) (Some (routine_of on.now.tables.now hook)) (trees.members_of m.old.store) m.old.ticks) m.new }
{
    begin(on.alloc, m);
    let line = line(on.program, hook);
    match call_hook(on, m, MOST_CALLS, hook, own, line) {
        Ok(_) => Ok(()),
        Err(stop) => Err(halted(on, class, stop)),
    }
}

/// Runs the hook that a class declares itself, if it does, on an instance.
fn run_own(
    on: &Loaded<'_>,
    ids: &[Option<RoutineId>],
    m: &mut RunState,
    class: u32,
    own: &Path,
) -> Result<(), Halt>
    requires loaded { IsLoaded on.now }
    requires inits { AreInits on.now.tables.now ids.now }
    ensures { RanAs result (words.run_hooks (program_of on.now.tables.now) (inits_along (program_of on.now.tables.now) own.now (class ∷ [])) (trees.members_of m.old.store) m.old.ticks) m.new }
{
    match init_at(ids, class) {
        Some(hook) => run_hook(on, m, class, hook, own),
        None => Ok(()),
    }
}

/// Runs the hooks of an instance, base first.
fn run_chain(
    on: &Loaded<'_>,
    ids: &[Option<RoutineId>],
    m: &mut RunState,
    instance: &Instance,
) -> Result<(), Halt>
    requires loaded { IsLoaded on.now }
    requires inits { AreInits on.now.tables.now ids.now }
    ensures { RanAs result (words.run_hooks (program_of on.now.tables.now) (inits_at (program_of on.now.tables.now) (instance_of instance.now)) (trees.members_of m.old.store) m.old.ticks) m.new }
{
    let Ok(chain) = on.tables.chain(on.alloc, instance.class) else {
        return Err(Halt::NoMemory);
    };
    let mut left = chain.as_slice();
    'classes: while let Some((class, behind)) = left.split_last() {
        match run_own(on, ids, m, *class, &instance.path) {
            Ok(()) => left = behind,
            Err(halt) => return Err(halt),
        }
    }
    Ok(())
}

/// Runs the hooks of instances in order.
pub fn run_all(
    on: &Loaded<'_>,
    ids: &[Option<RoutineId>],
    m: &mut RunState,
    instances: &[Instance],
) -> Result<(), Halt>
    requires loaded { IsLoaded on.now }
    requires inits { AreInits on.now.tables.now ids.now }
    ensures { RanAs result (words.run_hooks (program_of on.now.tables.now) (all_inits (program_of on.now.tables.now) (all_of instances.now)) (trees.members_of m.old.store) m.old.ticks) m.new }
{
    for instance in instances {
        match run_chain(on, ids, m, instance) {
            Ok(()) => {}
            Err(halt) => return Err(halt),
        }
    }
    Ok(())
}
