//! The room of runs.

ghost use Rattle.std.specs.Prelude.{◌≡◌, IfOk, MatchOption};
ghost use Rattle.stack_code.specs.Machine.{machine as body_run, hook as hook_run, Gives, IsStuck};
ghost use Rattle.cycle_machine.specs.Room.{IsRoomFor};

use crate::machine::Machine;
use crate::runs::write_flags;
use machine_memory::{Frames, Locals, Words};
use mem_image::Regions;
use plc_text::{Fault, FaultKind, NoMemory};
use stack_code::{Address, Frame, Outcome, Space, ValidCode};
use std::alloc::Global;
use std::marker::Model;
use std::mem::swap;

/// The most bytes of locals of a routine: 65 times as many have offsets of 32 bits.
const MOST_LOCALS: u32 = 0x3f0_0000;

/// Room for operand words, open calls and their locals. A contract sees for how much of them; of what an earlier run
/// left in it nothing is known, so nothing of that enters a run.
#[derive(Drop)]
pub struct Room {
    machine: Machine,
}

impl Model for Room {
    ghost use Rattle.cycle_machine.specs.Room.{Capacity};

    ghost Value = { Capacity };

    ghost view = { λ r. record { words = r.machine.words.room; bytes = r.machine.locals.stride } };
}

impl Room {
    /// Room for every run of the code. Takes all memory that a run needs.
    pub fn new(alloc: Global, code: &ValidCode) -> Result<Room, NoMemory>
        ensures { IfOk result (λ room. IsRoomFor code.now room) }
    {
        let mut stride: u32 = 0;
        let mut most: u32 = 0;
        'routines: for routine in code.code().routines.as_slice() {
            stride = stride.max(routine.locals);
            most = most.max(routine.room);
            if routine.ops.len() >= 0x1_0000_0000 {
                return Err(NoMemory);
            }
        }
        if stride > MOST_LOCALS {
            return Err(NoMemory);
        }
        let words = Words::new(alloc, 65 * most as usize + 1)?;
        let locals = Locals::new(alloc, stride)?;
        let frames = Frames::new(alloc)?;
        let regions = Regions::new(alloc, 0)?;
        let here = Frame {
            routine: 0,
            next: 0,
            own: None,
        };
        Ok(Room {
            machine: Machine {
                words,
                locals,
                frames,
                regions,
                here,
                ticks: 0,
            },
        })
    }
}

/// Runs the body of the program instance at that place of `bodies`, at the moment, with so many ticks. Takes no memory.
/// The run must not be one that gets stuck.
pub fn run(
    code: &ValidCode,
    regions: &mut Regions,
    room: &mut Room,
    entry: u32,
    now: u32,
    ticks: u32,
) -> Outcome
    requires room { IsRoomFor code.now room.old }
    requires unstuck { IsStuck (body_run code.now regions.old entry now ticks) → ⊥ }
    ensures gives { Gives (body_run code.now regions.old entry now ticks) result regions.new }
    ensures room { room.new ≡ room.old }
{
    match run_body(code, regions, room, entry, now, ticks) {
        Some(outcome) => outcome,
        None => unreachable!(),
    }
}

/// Runs a hook on its instance at moment 0: as the first open call, after a tick. The flags are its arguments, as many
/// of them as its routine has. Takes no memory. The run must not be one that gets stuck.
pub fn run_hook(
    code: &ValidCode,
    regions: &mut Regions,
    room: &mut Room,
    routine: u32,
    own: Address,
    flags: (bool, bool),
    ticks: u32,
) -> Outcome
    requires room { IsRoomFor code.now room.old }
    requires unstuck { IsStuck (hook_run code.now regions.old routine own flags.0 flags.1 ticks) → ⊥ }
    ensures gives { Gives (hook_run code.now regions.old routine own flags.0 flags.1 ticks) result regions.new }
    ensures room { room.new ≡ room.old }
{
    match run_hook_body(code, regions, room, routine, own, flags, ticks) {
        Some(outcome) => outcome,
        None => unreachable!(),
    }
}

/// The run of a body that may get stuck: None where it does.
#[inline]
pub fn run_body(
    code: &ValidCode,
    regions: &mut Regions,
    room: &mut Room,
    entry: u32,
    now: u32,
    ticks: u32,
) -> Option<Outcome>
    requires { IsRoomFor code.now room.old }
    ensures ends { MatchOption result (IsStuck (body_run code.now regions.old entry now ticks)) (λ outcome. Gives (body_run code.now regions.old entry now ticks) outcome regions.new) }
    ensures room { room.new ≡ room.old }
{
    let bodies = code.code().bodies.as_slice();
    if entry as usize >= bodies.len() {
        return None;
    }
    let body = bodies[entry as usize];
    let routine = &code.code().routines.as_slice()[body.routine as usize];
    let own = Address {
        space: Space::Regions,
        index: body.region,
        offset: 0,
    };
    let machine = &mut room.machine;
    machine.begin(body.routine, own, ticks);
    machine.locals.push(routine.locals);
    swap(regions, &mut machine.regions);
    let outcome = machine.run(code, now);
    swap(regions, &mut machine.regions);
    outcome
}

/// The run of a hook that may get stuck: None where it does.
#[inline]
pub fn run_hook_body(
    code: &ValidCode,
    regions: &mut Regions,
    room: &mut Room,
    routine: u32,
    own: Address,
    flags: (bool, bool),
    ticks: u32,
) -> Option<Outcome>
    requires { IsRoomFor code.now room.old }
    ensures ends { MatchOption result (IsStuck (hook_run code.now regions.old routine own flags.0 flags.1 ticks)) (λ outcome. Gives (hook_run code.now regions.old routine own flags.0 flags.1 ticks) outcome regions.new) }
    ensures room { room.new ≡ room.old }
{
    let routines = code.code().routines.as_slice();
    if routine as usize >= routines.len() {
        return None;
    }
    let hook = &routines[routine as usize];
    if ticks == 0 {
        return Some(Outcome::Fault(Fault {
            kind: FaultKind::Watchdog,
            line: hook.line,
        }));
    }
    let machine = &mut room.machine;
    machine.begin(routine, own, ticks - 1);
    machine.locals.push(0);
    machine.locals.push(hook.locals);
    match write_flags(flags, hook.args.len(), &mut machine.locals) {
        Ok(()) => {}
        Err(_) => return None,
    }
    swap(regions, &mut machine.regions);
    let outcome = machine.run(code, 0);
    swap(regions, &mut machine.regions);
    outcome
}
