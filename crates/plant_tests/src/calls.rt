//! Calls on a core of three counters, with `;` between them, over the plays of a text, which is a scenario: what each one is answered, and
//! the journal, with `;` for the end of each line. The calls on a play are `begin PLAY` and `finish PLAY`, which runs its claim first;
//! `reset PLAY`; and `want PLAY`, `prepare PLAY`, which the version that is loaded then does, and which ends a change that is denied,
//! `change PLAY`, `migrate PLAY` and `refuse PLAY NUMBER`, for want of memory, by the version of that number.

ghost use Rattle.std.specs.Prelude.{◌≡◌, ◌<◌, ◌≤◌, List, ℕ, length, true, IfOk, None, slice_get, slice_index_or, slice_set, replicate};
ghost use Rattle.std.specs.Arc.{arc_value};
ghost use Rattle.std.specs.Map.{values_of};
ghost use Rattle.plant_core.specs.Answers.{denial_of};
ghost use Rattle.plant_core.specs.Hub.{HasShortInputs};
ghost use Rattle.plant_rules.specs.History.{state_of, at_play, is_cycle, is_change, is_reset, source_of, Denies};
ghost use Rattle.plant_rules.specs.Next.{IsKit, IsNextWhole};
ghost use Rattle.plant_tests.specs.Calls.{SortAs};

use crate::plant_counters::Counters;
use cycle_journal::{Play, journal_text};
use plant_core::{Begun, Claim, Core, Later, OlderWish, ResetDone, Wanted, Wish};
use plant_rules::{Controlled, Next, Quiet};
use plc_text::{Denied, Items, NoMemory, Text, number, split_field};
use scenario::{Scenario, read_scenario};
use st_names::Names;
use std::alloc::Global;
use std::marker::Model;
use std::sync::Arc;

/// What a play asks for, a change with the place of its source.
#[derive(Drop)]
enum Sort {
    Nothing,
    Cycle,
    Change(u32),
    Reset,
}

fn sort_of(plays: &[Play], play: u32) -> Sort
    ensures { SortAs result plays.now play }
{
    if play == 0 || play as usize > plays.len() {
        return Sort::Nothing;
    }
    match &plays[play as usize - 1] {
        Play::Cycle { .. } => Sort::Cycle,
        Play::Change { name: _, source } => Sort::Change(*source),
        Play::Reset { .. } => Sort::Reset,
    }
}

/// Adds a word and numbers.
fn put(told: &mut Text, word: &str, numbers: &[u32]) -> Result<(), NoMemory> {
    told.push_str(word)?;
    for n in numbers {
        told.push_str(" ")?;
        told.push_decimal(u64::from(*n))?;
    }
    Ok(())
}

/// So many empty slots.
fn slots<K: Drop>(alloc: Global, count: usize) -> Result<Vec<Option<K>>, NoMemory>
    ensures { IfOk result (λ v. v.items ≡ replicate count None) }
{
    let mut slots = Vec::with_capacity(alloc, count)?;
    for _ in 0..count {
        slots.push_reserved(None);
    }
    Ok(slots)
}

/// Empties a slot.
fn take_slot<K>(slots: &mut Vec<Option<K>>, at: u32) -> Option<K>
    requires { at < length slots.old.items }
    ensures value { slice_index_or slots.old.items at None ≡ result }
    ensures after { slots.new.items ≡ slice_set slots.old.items at None }
{
    slots[at as usize].take()
}

/// A change that was prepared, and its play.
#[derive(Drop)]
struct Draft<P: Controlled> {
    play: u32,
    change: P::Change,
}

/// A core with what its calls handed out. One caller makes all calls, of the number 0.
#[derive(Drop)]
struct Table<P: Controlled> {
    core: Core<P>,
    plays: Arc<Items<Play>>,
    sources: Arc<Names<Text>>,
    // By the numbers of their plays.
    claims: Vec<Option<Claim<P>>>,
    wish: Option<Wish>,
    draft: Option<Draft<P>>,
    quiet: Option<Quiet<P>>,
}

impl<P: Controlled> Model for Table<P> {
    ghost use Rattle.std.specs.Arc.{arc_value};
    ghost use Rattle.std.specs.Map.{values_of};
    ghost use Rattle.plant_rules.specs.History.{Past};
    ghost use Rattle.plant_tests.specs.Calls.{IsTable, taken, drafted, away};

    ghost Value = { Past P };

    ghost view = { λ t. t.core };

    ghost invariant = { λ t. IsTable P.meaning t.core (arc_value t.plays) (values_of (arc_value t.sources)) t.claims.items (λ c. taken c.play c.task c.now c.input.items (arc_value c.kit.shared) c.kit.carrier) (λ c. P.ready (arc_value c.kit.shared) c.task c.kit.work) t.wish t.draft (λ d. drafted d.play (P.base_of d.change) (P.text_of d.change)) (λ d. P.fresh d.change) t.quiet (λ q. away (arc_value q.old) (P.base_of q.change) (P.text_of q.change) q.regions) (λ q. P.fresh q.change) };
}

impl<P: Controlled> Table<P> {
    fn new(
        alloc: Global,
        first: Next<P>,
        plays: Arc<Items<Play>>,
        sources: Arc<Names<Text>>,
        phases: Arc<Items<(u32, u32)>>,
    ) -> Result<Table<P>, NoMemory>
        requires few { length (arc_value plays) ≤ 65536 }
        requires inputs { HasShortInputs (arc_value plays) }
        requires whole { IsNextWhole P.meaning (λ t k. IsKit P.meaning P.ready (arc_value first.loaded) t (arc_value k.shared) k.work k.carrier) (arc_value first.loaded) (arc_value first.for_change) first.regions first.kits.items }
    {
        let claims = slots(alloc, plays.len() + 1)?;
        let ours = plays.clone()?;
        let texts = sources.clone()?;
        let core = Core::new(alloc, first, ours, texts, phases)?;
        Ok(Table {
            core,
            plays,
            sources,
            claims,
            wish: None,
            draft: None,
            quiet: None,
        })
    }

    fn begin(&mut self, play: u32, told: &mut Text) -> Result<(), NoMemory>
        requires there { play ≤ length self.old.script.plays }
        requires cycle { is_cycle (at_play P.meaning self.old.script play) ≡ true }
    {
        let begun = self.core.begin(0, play);
        self.core.is_lawful();
        match begun {
            Begun::Twice => put(told, "twice", &[]),
            Begun::Early { play } => put(told, "early", &[play]),
            Begun::Paused { change } => put(told, "paused", &[change]),
            Begun::Answered => put(told, "answered", &[]),
            Begun::Busy { region, holder } => put(told, "busy", &[region, holder]),
            Begun::Claim(claim) => {
                self.claims[play as usize] = Some(claim);
                put(told, "claim", &[])
            }
        }
    }

    fn finish(&mut self, play: u32, told: &mut Text) -> Result<(), NoMemory>
        requires there { play ≤ length self.old.script.plays }
    {
        match take_slot(&mut self.claims, play) {
            None => put(told, "no claim", &[]),
            Some(claim) => {
                self.core.finish(0, claim.run());
                self.core.is_lawful();
                put(told, "finished", &[])
            }
        }
    }

    fn reset(&mut self, play: u32, told: &mut Text) -> Result<(), NoMemory>
        requires there { play ≤ length self.old.script.plays }
        requires reset { is_reset (at_play P.meaning self.old.script play) ≡ true }
    {
        let done = self.core.reset(0, play);
        self.core.is_lawful();
        match done {
            ResetDone::Twice => put(told, "twice", &[]),
            ResetDone::Early { play } => put(told, "early", &[play]),
            ResetDone::Made => put(told, "made", &[]),
        }
    }

    fn want(&mut self, play: u32, told: &mut Text) -> Result<(), NoMemory>
        requires there { play ≤ length self.old.script.plays }
        requires change { is_change (at_play P.meaning self.old.script play) ≡ true }
    {
        let wanted = self.core.want(0, play);
        self.core.is_lawful();
        match wanted {
            Wanted::Twice => put(told, "twice", &[]),
            Wanted::Early { play } => put(told, "early", &[play]),
            Wanted::Paused { change } => put(told, "paused", &[change]),
            Wanted::Wish(wish) => {
                self.wish = Some(wish);
                put(told, "wish", &[])
            }
        }
    }

    fn prepare(
        &mut self,
        alloc: Global,
        play: u32,
        source: u32,
        told: &mut Text,
    ) -> Result<(), NoMemory>
        requires { (sources : List (List ℕ)) → source_of sources (at_play P.meaning self.old.script play) ≡ slice_get sources source }
    {
        let version = self.core.loaded().version();
        if version == u32::MAX || source >= self.sources.len() {
            return put(told, "no source", &[]);
        }
        match self.core.loaded().prepare(alloc, self.sources.at(source)) {
            Ok(change) => {
                self.draft = Some(Draft { play, change });
                put(told, "prepared", &[])
            }
            Err(why) => self.refuse(play, version, why, told),
        }
    }

    fn change(&mut self, told: &mut Text) -> Result<(), NoMemory> {
        let Some(draft) = self.draft.take() else {
            return put(told, "no change", &[]);
        };
        let Some(wish) = self.wish.take() else {
            return put(told, "no wish", &[]);
        };
        if wish.play != draft.play {
            self.wish = Some(wish);
            return put(told, "no change", &[]);
        }
        let Draft { play, change } = draft;
        match self.core.begin_change(0, wish, change) {
            Ok(quiet) => {
                self.core.is_lawful();
                self.quiet = Some(quiet);
                put(told, "quiet", &[])
            }
            Err(later) => match later {
                Later::Older {
                    prepared_for,
                    loaded,
                    wish,
                    change: _,
                } => {
                    self.wish = Some(wish);
                    put(told, "older", &[prepared_for, loaded])
                }
                Later::Busy {
                    holder,
                    wish,
                    change,
                } => {
                    self.wish = Some(wish);
                    self.draft = Some(Draft { play, change });
                    put(told, "busy", &[holder])
                }
            },
        }
    }

    fn migrate(&mut self, told: &mut Text) -> Result<(), NoMemory> {
        let Some(quiet) = self.quiet.take() else {
            return put(told, "no quiet", &[]);
        };
        self.core.is_lawful();
        match quiet.migrate() {
            Ok(done) => {
                self.core.finish_change(0, done);
                self.core.is_lawful();
                put(told, "changed", &[])
            }
            Err((quiet, refusal)) => {
                self.core.resume(0, quiet, refusal);
                self.core.is_lawful();
                put(told, "resumed", &[])
            }
        }
    }

    fn refuse(
        &mut self,
        play: u32,
        against: u32,
        why: Denied,
        told: &mut Text,
    ) -> Result<(), NoMemory>
        requires { (against ≡ P.meaning.number (state_of P.meaning self.old).version) → Denies P.meaning self.old.script (state_of P.meaning self.old) play (denial_of why) }
    {
        let Some(wish) = self.wish.take() else {
            return put(told, "no wish", &[]);
        };
        if wish.play != play {
            self.wish = Some(wish);
            return put(told, "no wish", &[]);
        }
        let refused = self.core.refuse(0, wish, against, why);
        self.core.is_lawful();
        match refused {
            Ok(()) => put(told, "refused", &[]),
            Err(older) => {
                let OlderWish {
                    loaded,
                    wish,
                    why: _,
                } = older;
                self.wish = Some(wish);
                put(told, "older", &[loaded])
            }
        }
    }

    fn call(&mut self, alloc: Global, line: &str, told: &mut Text) -> Result<(), NoMemory> {
        let (verb, words) = split_field(line);
        let (word, behind) = split_field(words);
        let play = number(word).unwrap_or(0);
        match sort_of(self.plays.as_slice(), play) {
            Sort::Nothing => put(told, "no play", &[]),
            Sort::Cycle => match verb {
                "finish" => self.finish(play, told),
                _ => self.begin(play, told),
            },
            Sort::Reset => self.reset(play, told),
            Sort::Change(source) => match verb {
                "want" => self.want(play, told),
                "prepare" => self.prepare(alloc, play, source, told),
                "change" => self.change(told),
                "migrate" => self.migrate(told),
                _ => self.refuse(play, number(behind).unwrap_or(0), Denied::NoMemory, told),
            },
        }
    }
}

/// Makes calls, and adds what each is answered, and the journal.
fn tell_answers<P: Controlled>(
    alloc: Global,
    told: &mut Text,
    table: &mut Table<P>,
    calls: &str,
) -> Result<(), NoMemory> {
    for call in calls.split(';') {
        table.call(alloc, call, told)?;
        told.push_str("; ")?;
    }
    let journal = journal_text(alloc, table.plays.as_slice(), table.core.entries())?;
    let lines = journal.as_str().replace(alloc, '\n', ";")?;
    told.push_str(lines.as_str())
}

/// Adds the answers of calls on a new core of a version, and its journal.
fn tell_calls<P: Controlled>(
    alloc: Global,
    told: &mut Text,
    first: Next<P>,
    scenario: Scenario,
    calls: &str,
) -> Result<(), NoMemory>
    requires few { length scenario.plays.value ≤ 65536 }
    requires inputs { HasShortInputs scenario.plays.value }
    requires whole { IsNextWhole P.meaning (λ t k. IsKit P.meaning P.ready (arc_value first.loaded) t (arc_value k.shared) k.work k.carrier) (arc_value first.loaded) (arc_value first.for_change) first.regions first.kits.items }
{
    let (plays, sources, phases) = scenario.into_shared();
    let mut table = Table::new(alloc, first, plays, sources, phases)?;
    tell_answers(alloc, told, &mut table, calls)
}

/// Adds the answers of calls on a new core of counters, and its journal.
fn tell_counters(
    alloc: Global,
    told: &mut Text,
    scenario: Scenario,
    calls: &str,
) -> Result<(), NoMemory>
    requires few { length scenario.plays.value ≤ 65536 }
    requires inputs { HasShortInputs scenario.plays.value }
{
    let first = Counters::first(alloc)?;
    tell_calls(alloc, told, first, scenario, calls)
}

/// Adds what a core of the plays of the text answers to calls.
pub fn tell(alloc: Global, told: &mut Text, text: &str, calls: &str) -> Result<(), NoMemory> {
    if text.len() >= u32::MAX as usize {
        return told.push_str("too long");
    }
    match read_scenario(alloc, text.as_bytes()) {
        Ok(scenario) => tell_counters(alloc, told, scenario, calls),
        Err(_) => told.push_str("no scenario"),
    }
}
