//! The core.

ghost use Rattle.std.specs.Prelude.{◌≡◌, [], length, IfOk, IsSome, Some, None, vec_capacity};
ghost use Rattle.std.specs.Arc.{arc_value};
ghost use Rattle.std.specs.Map.{values_of};
ghost use Rattle.plant_rules.specs.Next.{IsKit, IsNextWhole};
ghost use Rattle.plant_rules.specs.History.{Legal, state_of, past, script_of};
ghost use Rattle.plant_core.specs.Hub.{Sound, HasShortInputs};
ghost use Rattle.plant_core.specs.Private.Ledger.{IsBlank};

use crate::event::{Event, What};
use crate::play_order::Progress;
use crate::stage::{Ongoing, Status, all_idle};
use cycle_journal::{Entry, Play};
use mem_image::Regions;
use plant_rules::{Controlled, Kit, Next};
use plc_text::{Items, NoMemory, Text};
use st_names::Names;
use std::alloc::Global;
use std::marker::Model;
use std::snapshot::Snapshot;
use std::sync::Arc;

/// What of a core crosses threads by itself, since none of it is a snapshot.
#[derive(Drop)]
pub struct Stock<P, K> {
    pub(crate) alloc: Global,
    pub(crate) loaded: Arc<P, Global>,
    pub(crate) for_change: Option<Arc<P, Global>>,
    pub(crate) regions: Regions,
    // An empty table, which stands in for the regions while a change has them.
    pub(crate) nothing: Option<Regions>,
    pub(crate) kits: Vec<Option<Kit<P, K>>>,
    pub(crate) progress: Progress,
    // By the place of a task's name.
    pub(crate) held: Vec<bool>,
    pub(crate) since: Vec<u32>,
    pub(crate) entries: Vec<Entry>,
}

/// The loaded version with its regions at home, how far each play has come, and the history of all calls, which
/// contracts see: the first version with its contents, the script, and an event for each call that made one.
#[derive(Drop)]
pub struct Core<P: Controlled> {
    pub(crate) stock: Stock<P, P::Work>,
    pub(crate) status: Vec<Status>,
    pub(crate) ongoing: Ongoing,
    pub(crate) events: Vec<Event<P>>,
    pub(crate) first: Snapshot<P>,
    pub(crate) first_contents: Snapshot<Regions>,
}

impl<P: Controlled> Model for Core<P> {
    ghost use Rattle.std.specs.Prelude.{map, vec_capacity, ◌≡◌};
    ghost use Rattle.std.specs.Option.{option_map};
    ghost use Rattle.std.specs.Arc.{arc_value};
    ghost use Rattle.plant_rules.specs.Next.{IsKit};
    ghost use Rattle.plant_rules.specs.History.{Past, past};
    ghost use Rattle.plant_core.specs.Event.{step_of};
    ghost use Rattle.plant_core.specs.Private.Keeping.{Kept, fields};

    ghost Value = { Past P };

    ghost view = { λ c. past c.first.value c.first_contents.value c.stock.progress.script (map step_of c.events.items) };

    ghost invariant = { λ c. Kept (fields c.stock.kits.items (arc_value c.stock.loaded) (option_map (λ a. arc_value a) c.stock.for_change) c.stock.regions c.stock.nothing c.status.items c.ongoing c.stock.progress c.stock.held.items c.stock.since.items c.stock.entries.items (vec_capacity c.stock.entries) (vec_capacity c.events)) (λ v t k. IsKit P.meaning P.ready v t (arc_value k.shared) k.work k.carrier) P.meaning (past c.first.value c.first_contents.value c.stock.progress.script (map step_of c.events.items)) };
}

// What a core takes memory for.
#[derive(Drop)]
struct Ledger<P> {
    progress: Progress,
    nothing: Regions,
    status: Vec<Status>,
    held: Vec<bool>,
    since: Vec<u32>,
    entries: Vec<Entry>,
    events: Vec<Event<P>>,
}

impl<P> Ledger<P> {
    // Room for one entry and three events of each play, and for what is noted of tasks.
    fn new(
        alloc: Global,
        plays: Arc<Items<Play>>,
        sources: Arc<Names<Text>>,
        phases: Arc<Items<(u32, u32)>>,
    ) -> Result<Ledger<P>, NoMemory>
        ensures { IfOk result (λ l. IsBlank (script_of (arc_value plays) (values_of (arc_value sources)) (arc_value phases)) l.progress l.nothing l.status.items l.held.items l.since.items l.entries.items (vec_capacity l.entries) l.events.items (vec_capacity l.events)) }
    {
        let progress = Progress::new(alloc, plays, sources, phases)?;
        let count = progress.count() as usize;
        let names = progress.name_count() as usize;
        let nothing = Regions::new(alloc, 0)?;
        let status = all_idle(alloc, count)?;
        let held = vec![in alloc; false; names]?;
        let since = vec![in alloc; 0; names]?;
        let entries = Vec::with_capacity(alloc, count)?;
        let events = Vec::with_capacity(alloc, 3 * count + 2)?;
        Ok(Ledger {
            progress,
            nothing,
            status,
            held,
            since,
            entries,
            events,
        })
    }
}

// What a slot holds that is not empty.
pub fn take_some<K>(slot: &mut Option<K>) -> K
    requires { IsSome slot.old }
    ensures value { slot.old ≡ Some result }
    ensures after { slot.new ≡ None }
{
    match slot.take() {
        Some(x) => x,
        None => unreachable!(),
    }
}

impl<P: Controlled> Core<P> {
    /// A core of a first version, before the first play. After want of memory the first version is given up.
    pub fn new(
        alloc: Global,
        first: Next<P>,
        plays: Arc<Items<Play>>,
        sources: Arc<Names<Text>>,
        phases: Arc<Items<(u32, u32)>>,
    ) -> Result<Core<P>, NoMemory>
        requires inputs { HasShortInputs (arc_value plays) }
        requires whole { IsNextWhole P.meaning (λ t k. IsKit P.meaning P.ready (arc_value first.loaded) t (arc_value k.shared) k.work k.carrier) (arc_value first.loaded) (arc_value first.for_change) first.regions first.kits.items }
        ensures { IfOk result (λ c. c ≡ past (arc_value first.loaded) first.regions (script_of (arc_value plays) (values_of (arc_value sources)) (arc_value phases)) []) }
    {
        let ledger = Ledger::new(alloc, plays, sources, phases)?;
        Ok(Core::begun_with(alloc, first, ledger))
    }

    fn begun_with(alloc: Global, first: Next<P>, ledger: Ledger<P>) -> Core<P>
        requires blank { IsBlank ledger.progress.script ledger.progress ledger.nothing ledger.status.items ledger.held.items ledger.since.items ledger.entries.items (vec_capacity ledger.entries) ledger.events.items (vec_capacity ledger.events) }
        requires inputs { HasShortInputs ledger.progress.script.plays }
        requires whole { IsNextWhole P.meaning (λ t k. IsKit P.meaning P.ready (arc_value first.loaded) t (arc_value k.shared) k.work k.carrier) (arc_value first.loaded) (arc_value first.for_change) first.regions first.kits.items }
        ensures { result ≡ past (arc_value first.loaded) first.regions ledger.progress.script [] }
    {
        let Next {
            loaded,
            for_change,
            regions,
            kits,
        } = first;
        let Ledger {
            progress,
            nothing,
            status,
            held,
            since,
            entries,
            events,
        } = ledger;
        let version = Snapshot::of(&*loaded);
        let first_contents = Snapshot::of(&regions);
        Core {
            stock: Stock {
                alloc,
                loaded,
                for_change: Some(for_change),
                regions,
                nothing: Some(nothing),
                kits,
                progress,
                held,
                since,
                entries,
            },
            status,
            ongoing: Ongoing::Free,
            events,
            first: version,
            first_contents,
        }
    }

    /// How many events there are.
    pub fn count(&self) -> usize
        ensures { result ≡ length self.now.history }
    {
        self.events.len()
    }

    /// The history is legal, and what the state says of contents and claims holds.
    pub fn is_lawful(&self)
        ensures legal { Legal P.meaning self.now }
        ensures sound { Sound P.meaning self.now.script (state_of P.meaning self.now) }
    {
        let _ = &self.status;
    }

    /// The entries so far, in the order in which they were made.
    pub fn entries(&self) -> &[Entry]
        ensures { result.now ≡ (state_of P.meaning self.now).entries }
    {
        self.stock.entries.as_slice()
    }

    /// The loaded version.
    pub fn loaded(&self) -> &Arc<P, Global>
        ensures { arc_value result.now ≡ (state_of P.meaning self.now).version }
    {
        &self.stock.loaded
    }
}
