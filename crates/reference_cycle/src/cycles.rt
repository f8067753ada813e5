//! A cycle of a task: inputs, its programs, outputs (IEC 61131-3:2013, 6.8.2).

ghost use Rattle.std.specs.Prelude.{◌≡◌, ◌-◌, IfOk};
ghost use Rattle.cycle_journal.specs.declared.entry.CycleReply.TheVariants as reply;
ghost use Rattle.st_meaning.specs.Cycle as words;
ghost use Rattle.st_meaning.specs.ProcessImage.{collect, located_of};
ghost use Rattle.st_values.specs.View.{program_of};
ghost use Rattle.run_state.specs.State.{base_of, state_of};
ghost use Rattle.value_trees.specs.Value.{members_of};
ghost use Rattle.reference_cycle.specs.Cycle.{ended};
ghost use Rattle.reference_tasks.specs.Loaded.{IsLoaded};
ghost use Rattle.process_image.specs.Located.{all_seen};

use crate::ended::Ended;
use cycle_journal::CycleReply;
use plc_text::{Fault, NoMemory, Series};
use process_image::{Located, collect, latch};
use reference_tasks::{Loaded, run_task};
use run_state::{Log, RunState, Stop, roll_back};
use std::alloc::Global;
use value_trees::Member;

/// The ticks of a cycle.
const ALL_TICKS: u32 = 100_000;

/// The state with which a cycle begins.
fn begun(alloc: Global, store: Series<Member>, moment: u64) -> RunState
    ensures run { state_of result ≡ words.begun (members_of store) moment }
    ensures base { base_of result ≡ members_of store }
{
    RunState {
        store,
        frames: Series::new(alloc),
        ticks: ALL_TICKS,
        moment,
        undo: Log::new(alloc),
    }
}

/// A cycle that came to its end.
fn done(
    alloc: Global,
    located: &[Located<'_>],
    regions: &[u32],
    m: RunState,
) -> Result<Ended, NoMemory>
    ensures { IfOk result (λ e. ended e ≡ (reply.Done (words.all_ticks - m.ticks) (collect (all_seen located.now) regions.now (members_of m.store)), members_of m.store)) }
{
    let outputs = collect(alloc, &m, located, regions)?;
    let ticks = ALL_TICKS.saturating_sub(m.ticks);
    Ok(Ended {
        reply: CycleReply::Done { ticks, outputs },
        store: m.store,
    })
}

/// A cycle that stopped at a fault leaves the store as it was.
fn taken_back(m: RunState, fault: Fault) -> Ended
    ensures { ended result ≡ (reply.Fault fault, base_of m) }
{
    let mut m = m;
    roll_back(&mut m);
    Ended {
        reply: CycleReply::Fault(fault),
        store: m.store,
    }
}

/// A cycle of a task whose footprint are these regions, at a moment, with the bytes of the input. The variables with addresses are those
/// of the program. Nothing is promised of the store where memory is wanting, and nothing bounds the machine's stack.
pub fn cycle(
    on: &Loaded<'_>,
    located: &[Located<'_>],
    regions: &[u32],
    task: u32,
    moment: u64,
    input: &[u8],
    store: Series<Member>,
) -> Result<Ended, NoMemory>
    requires loaded { IsLoaded on.now }
    requires located { all_seen located.now ≡ located_of (program_of on.now.tables.now) }
    ensures { IfOk result (λ e. ended e ≡ words.cycle (program_of on.now.tables.now) regions.now task moment input.now (members_of store)) }
{
    let mut m = begun(on.alloc, store, moment);
    latch(on.alloc, &mut m, located, regions, input)?;
    match run_task(on, &mut m, task, 0) {
        Ok(()) => done(on.alloc, located, regions, m),
        Err(stop) => match stop {
            Stop::Fault(fault) => Ok(taken_back(m, fault)),
            Stop::NoMemory => Err(NoMemory),
        },
    }
}
