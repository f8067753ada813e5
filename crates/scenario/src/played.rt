//! The plays and phases of a scenario that were read so far.

ghost use Rattle.std.specs.Prelude.{◌≡◌, None, Some, IfOk, OnOk, MatchBool};
ghost use Rattle.std.specs.List.{list_any};
ghost use Rattle.plc_text.specs.Words.{same};
ghost use Rattle.scenario.specs.Private.Played as so_far;

use cycle_journal::Play;
use plc_text::{Items, NoMemory, Text};
use std::alloc::Global;

/// How many plays a scenario may have.
const PLAY_LIMIT: u32 = 65_536;

/// How many of them may be changes.
const CHANGE_LIMIT: u32 = 256;

/// How many tasks its plays may name.
const TASK_LIMIT: usize = 32;

/// Plays and phases, within the limits of a scenario.
#[derive(Drop)]
pub struct Played {
    pub plays: Items<Play>,
    /// The phases that have ended.
    pub phases: Items<(u32, u32)>,
    /// The number of the first play of the phase that has not ended.
    first: u32,
    /// The number of the next play.
    next: u32,
    /// How many plays are changes.
    changes: u32,
    /// The tasks that the plays name, each once.
    tasks: Items<Text>,
}

impl Played {
    /// No plays, in a first phase.
    pub fn new(alloc: Global) -> Played
        ensures { result ≡ so_far.nothing_played }
    {
        Played {
            plays: Items::new(alloc),
            phases: Items::new(alloc),
            first: 1,
            next: 1,
            changes: 0,
            tasks: Items::new(alloc),
        }
    }

    /// The plays, and the phases that have ended.
    pub fn into_parts(self) -> (Items<Play>, Items<(u32, u32)>)
        ensures plays { result.0 ≡ self.plays }
        ensures phases { result.1 ≡ self.phases }
    {
        let Played {
            plays,
            phases,
            tasks,
            ..
        } = self;
        drop(tasks);
        (plays, phases)
    }

    /// Ends the phase, and begins the next one.
    pub fn end_phase(&mut self) -> Result<(), NoMemory>
        ensures { OnOk result (self.new ≡ so_far.with_phase self.old) }
    {
        self.phases.push((self.first, self.next))?;
        self.first = self.next;
        Ok(())
    }

    /// Adds a play, and tells whether the limits allow it.
    pub fn add(&mut self, alloc: Global, play: Play) -> Result<bool, NoMemory>
        ensures { IfOk result (λ added. MatchBool added (so_far.with_play self.old play ≡ Some self.new) (so_far.with_play self.old play ≡ None)) }
    {
        if self.next > PLAY_LIMIT || !self.count(alloc, &play)? {
            return Ok(false);
        }
        self.plays.push(play)?;
        self.next += 1;
        Ok(true)
    }

    /// Counts what the play counts for, and tells whether the limits allow it.
    fn count(&mut self, alloc: Global, play: &Play) -> Result<bool, NoMemory>
        ensures { IfOk result (λ counts. MatchBool counts (so_far.counted self.old play.now ≡ Some self.new) (so_far.counted self.old play.now ≡ None)) }
    {
        match play {
            Play::Cycle { task, .. } | Play::Reset { task } => self.name_task(alloc, task),
            Play::Change { .. } => Ok(self.count_change()),
        }
    }

    /// Counts one more change, if the limit allows it.
    fn count_change(&mut self) -> bool
        ensures { MatchBool result (so_far.with_change self.old ≡ Some self.new) (so_far.with_change self.old ≡ None) }
    {
        if self.changes >= CHANGE_LIMIT {
            return false;
        }
        self.changes += 1;
        true
    }

    /// Adds the task to those that are named, unless it is one of them, and tells whether the limit allows it.
    fn name_task(&mut self, alloc: Global, task: &Text) -> Result<bool, NoMemory>
        ensures { IfOk result (λ named. MatchBool named (so_far.with_task self.old task.now ≡ Some self.new) (so_far.with_task self.old task.now ≡ None)) }
    {
        if holds(self.tasks.as_slice(), task) {
            return Ok(true);
        }
        if self.tasks.len() >= TASK_LIMIT {
            return Ok(false);
        }
        self.tasks.push(Text::copy(alloc, task.as_str())?)?;
        Ok(true)
    }
}

fn holds(names: &[Text], name: &Text) -> bool
    ensures { result ≡ list_any (same name.now) names.now }
{
    names.iter().any(|seen| name == seen)
}
