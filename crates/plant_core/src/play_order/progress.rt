//! How far a script has come.

ghost use Rattle.std.specs.Prelude.{◌≡◌, ◌<◌, ◌≤◌, ℕ, false, length, slice_get, Some, IsTrue, IfOk, MatchOption};
ghost use Rattle.std.specs.Arc.{arc_value};
ghost use Rattle.std.specs.Map.{values_of};
ghost use Rattle.cycle_journal.specs.Play.{play_numbered};
ghost use Rattle.plant_rules.specs.History.{script_of, is_change};
ghost use Rattle.plant_core.specs.play_order.Progress.{Misses, MissesFirst, IsNamed, is_done, none_done, marked};

use crate::play_order::naming::lane_numbers;
use crate::play_order::tables::{first_left, is_earlier, next_left, next_plays, phase_numbers};
use cycle_journal::Play;
use plc_text::{Items, NoMemory, Text};
use st_names::Names;
use std::alloc::Global;
use std::marker::Model;
use std::sync::Arc;

/// The plays of a scenario with their sources and phases, and which plays have their entries. Plays are numbered from 1.
/// The cycles and resets of a task are one list, and all changes are one.
pub struct Progress {
    plays: Arc<Items<Play>>,
    sources: Arc<Names<Text>>,
    phases: Arc<Items<(u32, u32)>>,
    // The names of tasks in the plays.
    names: Names<()>,
    // By the number of a play: its list, its phase, the next play of its list, and whether it has its entry.
    lanes: Vec<u32>,
    numbers: Vec<usize>,
    following: Vec<u32>,
    done: Vec<bool>,
    // The first play without an entry, of each list and of all.
    next: Vec<u32>,
    first: u32,
}

// By hand, so that a drop is one call: a derived one is written out wherever a `?` may need it.
impl Drop for Progress {
    fn drop(self) {
        let Progress {
            plays,
            sources,
            phases,
            names,
            lanes,
            numbers,
            following,
            done,
            next,
            first: _,
        } = self;
        drop(plays);
        drop(sources);
        drop(phases);
        drop(names);
        drop(lanes);
        drop(numbers);
        drop(following);
        drop(done);
        drop(next);
    }
}

impl Model for Progress {
    ghost use Rattle.std.specs.Arc.{arc_value};
    ghost use Rattle.std.specs.Map.{keys_of, values_of};
    ghost use Rattle.plant_rules.specs.History.{script_of};
    ghost use Rattle.plant_core.specs.play_order.Progress.{Standing, standing};
    ghost use Rattle.plant_core.specs.play_order.Private.Tables.{IsOrdered};

    ghost Value = { Standing };

    ghost view = { λ o. standing (script_of (arc_value o.plays) (values_of (arc_value o.sources)) (arc_value o.phases)) (keys_of o.names) o.done.items };

    ghost invariant = { λ o. IsOrdered (standing (script_of (arc_value o.plays) (values_of (arc_value o.sources)) (arc_value o.phases)) (keys_of o.names) o.done.items) o.lanes.items o.numbers.items o.following.items o.next.items o.first };
}

impl Progress {
    /// The script before its first play. Also where there are 2^32 - 1 plays or more, it is said that there is no memory.
    pub fn new(
        alloc: Global,
        plays: Arc<Items<Play>>,
        sources: Arc<Names<Text>>,
        phases: Arc<Items<(u32, u32)>>,
    ) -> Result<Progress, NoMemory>
        ensures script { IfOk result (λ progress. progress.script ≡ script_of (arc_value plays) (values_of (arc_value sources)) (arc_value phases)) }
        ensures done { IfOk result (λ progress. progress.done ≡ none_done progress.script) }
    {
        let count = plays.len();
        if count >= u32::MAX as usize {
            return Err(NoMemory);
        }
        let mut names = Names::new(alloc);
        let lanes = lane_numbers(alloc, &mut names, plays.as_slice())?;
        let numbers = phase_numbers(alloc, count as u32 + 1, phases.as_slice())?;
        let tables = next_plays(alloc, lanes.as_slice(), names.len() as usize + 1)?;
        let (following, next) = tables;
        let mut done = vec![in alloc; false; count + 1]?;
        done[0] = true;
        Ok(Progress {
            plays,
            sources,
            phases,
            names,
            lanes,
            numbers,
            following,
            done,
            next,
            first: 1,
        })
    }

    /// The number of plays.
    pub fn count(&self) -> u32
        ensures { result ≡ length self.now.script.plays }
    {
        self.plays.len() as u32
    }

    /// The play of this number.
    pub fn play(&self, play: u32) -> &Play
        requires from { 1 ≤ play }
        requires to { play ≤ length self.now.script.plays }
        ensures { play_numbered self.now.script.plays play ≡ Some result.now }
    {
        &self.plays.as_slice()[play as usize - 1]
    }

    /// The number of the names of tasks in the plays.
    pub fn name_count(&self) -> u32
        ensures { result ≡ length self.now.names }
    {
        self.names.len()
    }

    /// The name at this place.
    pub fn name(&self, place: u32) -> &Text
        requires { place < length self.now.names }
        ensures { slice_get self.now.names place ≡ Some result.now }
    {
        self.names.key(place)
    }

    /// The place of the name of the play's task among the names.
    pub fn place_of_task(&self, play: u32) -> u32
        requires from { 1 ≤ play }
        requires to { play ≤ length self.now.script.plays }
        requires task { is_change (play_numbered self.now.script.plays play) ≡ false }
        ensures { IsNamed self.now play result }
    {
        self.lanes[play as usize] - 1
    }

    /// The least play that comes before this one and has no entry.
    pub fn early(&self, play: u32) -> Option<u32>
        requires from { 1 ≤ play }
        requires to { play ≤ length self.now.script.plays }
        ensures { MatchOption result ((q : ℕ) → Misses self.now q play → ⊥) (λ q. MissesFirst self.now play q) }
    {
        if is_earlier(self.numbers.as_slice(), self.first, play) {
            return Some(self.first);
        }
        let lane = self.lanes[play as usize] as usize;
        let next = self.next[lane];
        if next < play {
            return Some(next);
        }
        None
    }

    /// The play has its entry now.
    pub fn mark(&mut self, play: u32)
        requires from { 1 ≤ play }
        requires to { play ≤ length self.old.script.plays }
        ensures { self.new ≡ marked self.old play }
    {
        self.done[play as usize] = true;
        let lane = self.lanes[play as usize] as usize;
        let done = self.done.as_slice();
        let next = next_left(self.following.as_slice(), done, self.next[lane]);
        self.first = first_left(done, self.first);
        self.next[lane] = next;
    }
}
