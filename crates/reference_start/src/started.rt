//! The first load of a program.

ghost use Rattle.std.specs.Prelude.{◌≡◌, IfOk};
ghost use Rattle.st_change.specs.Change as words;
ghost use Rattle.st_values.specs.View.{program_of};
ghost use Rattle.region_instances.specs.Instances.{RegionsUnfold};
ghost use Rattle.reference_tasks.specs.Loaded.{IsLoaded};
ghost use Rattle.reference_start.specs.Start.{started};

use crate::hooks::{Halt, Stopped, own_inits, run_all};
use crate::instances::instances;
use initial_trees::initial_store;
use plc_text::{NoMemory, Series};
use reference_tasks::Loaded;
use run_state::{Log, RunState};
use value_trees::Member;

/// The ticks of all hooks of a first load.
const ALL_TICKS: u32 = 100_000;

/// How the first load ended.
#[derive(Drop)]
pub enum Started {
    /// With this store, and so many ticks left.
    Ran { store: Series<Member>, ticks: u32 },
    /// At a fault in a hook.
    Stopped(Stopped),
}

/// Loads a program for the first time: initial values, and then the hooks of all instances. The types of the regions are to unfold, as
/// those of each accepted program do. Nothing bounds the machine's stack in the hooks.
pub fn start(on: &Loaded<'_>) -> Result<Started, NoMemory>
    requires { IsLoaded on.now }
    ensures { IfOk result (λ s. RegionsUnfold (program_of on.now.tables.now) → started s ≡ words.start (program_of on.now.tables.now)) }
{
    let instances = instances(on.alloc, on.program, on.members)?;
    let ids = own_inits(on.alloc, on.program)?;
    let store = initial_store(on.alloc, on.program)?;
    let mut m = RunState {
        store,
        frames: Series::new(on.alloc),
        ticks: ALL_TICKS,
        moment: 0,
        undo: Log::new(on.alloc),
    };
    match run_all(on, &ids, &mut m, &instances) {
        Ok(()) => Ok(Started::Ran {
            store: m.store,
            ticks: m.ticks,
        }),
        Err(halt) => match halt {
            Halt::Stopped(stopped) => Ok(Started::Stopped(stopped)),
            Halt::NoMemory => Err(NoMemory),
        },
    }
}
