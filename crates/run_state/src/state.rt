//! Regions, open calls and ticks.

ghost use Rattle.std.specs.Prelude.{◌≡◌, [], None};
ghost use Rattle.st_meaning.specs.State as run;
ghost use Rattle.run_state.specs.State.{Agrees, Keeps, base_of, state_of};
ghost use Rattle.run_state.specs.declared.state.Stop.TheVariants as stop;

use plc_text::{Fault, FaultKind, NoMemory, Series};
use st_tree::{Path, Steps};
use std::alloc::Global;
use value_trees::{Member, Value};

/// Where a value stands: in a region, or in a local of an open call, the outermost call first.
#[derive(Drop)]
pub enum Spot {
    Region(Path),
    /// The depth of the call, the number of the local, and the way in it.
    Local(usize, u32, Steps),
}

/// A local holds a value, or is an in-out and stands for a place; before it is bound, for none.
#[derive(Drop)]
pub enum Slot {
    Holds(Value),
    Bound(Spot),
    Unbound,
}

/// An open call: its own instance, where it has one, and its locals.
#[derive(Drop)]
pub struct Frame {
    pub own: Option<Path>,
    pub locals: Series<Slot>,
}

/// A value that was replaced in a region.
#[derive(Drop)]
pub struct Undo {
    pub path: Path,
    pub old: Value,
}

/// What takes back what was written to regions since a cycle began.
#[derive(Drop)]
pub struct Log {
    /// What was replaced, the last at the end.
    pub replaced: Series<Undo>,
    /// The regions as they were when the cycle began, once all that was replaced came to more than they hold. Then nothing is kept any more.
    pub whole: Option<Series<Member>>,
    /// How many values are kept before it is looked whether the regions hold more.
    pub limit: usize,
    /// How many more of them that is.
    pub room: usize,
}

/// How many values are kept before the regions are counted for the first time.
const FIRST_LIMIT: usize = 256;

impl Log {
    /// Nothing to be taken back.
    pub fn new(alloc: Global) -> Log
        ensures replaced { result.replaced ≡ [] }
        ensures whole { result.whole ≡ None }
    {
        Log {
            replaced: Series::new(alloc),
            whole: None,
            limit: FIRST_LIMIT,
            room: FIRST_LIMIT,
        }
    }
}

/// The regions with their names, the open calls, the outermost first, the ticks left, the moment of the cycle, and what takes its writes
/// back.
#[derive(Drop)]
pub struct RunState {
    pub store: Series<Member>,
    pub frames: Series<Frame>,
    pub ticks: u32,
    pub moment: u64,
    pub undo: Log,
}

/// Why a run stopped.
#[derive(Debug, Drop)]
pub enum Stop {
    Fault(Fault),
    NoMemory,
}

impl From<NoMemory> for Stop {
    fn from(_refused: NoMemory) -> Stop {
        Stop::NoMemory
    }
}

/// A fault at a line.
pub fn fault(kind: FaultKind, line: u32) -> Stop
    ensures { result ≡ stop.Fault (record { kind = kind; line = line }) }
{
    Stop::Fault(Fault { kind, line })
}

/// Spends a tick, or is the Watchdog's fault where none is left.
pub fn spend(m: &mut RunState, line: u32) -> Result<(), Stop>
    ensures run { Agrees result (run.spend line (state_of m.old)) (state_of m.new) }
    ensures base { Keeps result (base_of m.old) (base_of m.new) }
{
    if m.ticks == 0 {
        return Err(fault(FaultKind::Watchdog, line));
    }
    m.ticks -= 1;
    Ok(())
}
