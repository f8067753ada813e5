//! What stands in the way of a play.

ghost use Rattle.std.specs.Prelude.{◌≡◌, ◌<◌, ◌≤◌, ℕ, false, length, MatchBool, MatchOption};
ghost use Rattle.plant_rules.specs.History.{state_of, stage_at, is_change, is_cycle, at_play, done, idle, IsOpen, Unclaimed};
ghost use Rattle.plant_core.specs.Answers.{turn_play, IsTiming, IsTimingOnce, IsAble, IsTask, IsBusy};
ghost use Rattle.plant_core.specs.Private.Causes.{MeetsWith, nearer_of};

use crate::answers::{Able, Timing};
use crate::hub::Core;
use crate::meeting::first_meeting;
use crate::stage::{Ongoing, Status};
use plant_rules::Controlled;

impl<P: Controlled> Core<P> {
    /// Whether the play has its entry.
    pub fn is_done(&self, play: u32) -> bool
        requires { play ≤ length self.now.script.plays }
        ensures { MatchBool result (stage_at (state_of P.meaning self.now).stages play ≡ done) (stage_at (state_of P.meaning self.now).stages play ≡ done → ⊥) }
    {
        match &self.status[play as usize] {
            Status::Done => true,
            Status::Idle => false,
            Status::Open(_, _, _) => false,
        }
    }

    fn is_idle(&self, play: u32) -> bool
        requires { play ≤ length self.now.script.plays }
        ensures { MatchBool result (stage_at (state_of P.meaning self.now).stages play ≡ idle) (stage_at (state_of P.meaning self.now).stages play ≡ idle → ⊥) }
    {
        match &self.status[play as usize] {
            Status::Done => false,
            Status::Idle => true,
            Status::Open(_, _, _) => false,
        }
    }

    // Where a cycle stands.
    pub(crate) fn place(&self, play: u32) -> Timing
        requires from { 1 ≤ play }
        requires to { play ≤ length self.now.script.plays }
        ensures { IsTiming P.meaning self.now.script (state_of P.meaning self.now) play result }
    {
        if !self.is_idle(play) {
            return Timing::Twice;
        }
        match self.stock.progress.early(play) {
            Some(q) => Timing::Early(q),
            None => Timing::Next,
        }
    }

    // Where a change or a reset stands.
    pub(crate) fn place_once(&self, play: u32) -> Timing
        requires from { 1 ≤ play }
        requires to { play ≤ length self.now.script.plays }
        requires once { is_cycle (at_play P.meaning self.now.script play) ≡ false }
        ensures { IsTimingOnce P.meaning self.now.script (state_of P.meaning self.now) play result }
    {
        if self.is_done(play) {
            return Timing::Twice;
        }
        match self.stock.progress.early(play) {
            Some(q) => Timing::Early(q),
            None => Timing::Next,
        }
    }

    // The play of the change that is wanted or under way.
    pub(crate) fn paused(&self) -> Option<u32>
        ensures { result ≡ turn_play (state_of P.meaning self.now).turn }
    {
        match &self.ongoing {
            Ongoing::Free => None,
            Ongoing::Wanted(play, _) => Some(*play),
            Ongoing::UnderWay(play, _, _) => Some(*play),
        }
    }

    // Whether the loaded version has the play's task, and whether it is held.
    pub(crate) fn able(&self, play: u32) -> Able
        requires from { 1 ≤ play }
        requires to { play ≤ length self.now.script.plays }
        requires task { is_change (at_play P.meaning self.now.script play) ≡ false }
        ensures able { IsAble P.meaning self.now.script (state_of P.meaning self.now) play result }
        ensures below { IsTask P.meaning (state_of P.meaning self.now).version result }
    {
        let place = self.stock.progress.place_of_task(play);
        match self
            .stock
            .loaded
            .task_named(self.stock.progress.name(place))
        {
            None => Able::Gone(self.stock.since[place as usize]),
            Some(task) => {
                if self.stock.held[place as usize] {
                    Able::Held
                } else {
                    Able::Task(task)
                }
            }
        }
    }

    fn is_open(&self, task: u32) -> bool
        requires { task < P.meaning.tasks (state_of P.meaning self.now).version }
        ensures { MatchBool result (IsOpen P.meaning self.now.script (state_of P.meaning self.now) task) (IsOpen P.meaning self.now.script (state_of P.meaning self.now) task → ⊥) }
    {
        self.stock.kits[task as usize].is_none()
    }

    // The least task with an open cycle.
    pub(crate) fn open_task(&self) -> Option<u32>
        ensures { MatchOption result ((t : ℕ) → IsOpen P.meaning self.now.script (state_of P.meaning self.now) t → ⊥) (λ h. IsOpen P.meaning self.now.script (state_of P.meaning self.now) h × ((k : ℕ) → k < h → IsOpen P.meaning self.now.script (state_of P.meaning self.now) k → ⊥)) }
    {
        for task in 0..self.stock.loaded.task_count() {
            if self.is_open(task) {
                return Some(task);
            }
        }
        None
    }

    // The least region that an open cycle of the other task has in this one's way.
    fn meeting(&self, task: u32, other: u32) -> Option<u32>
        requires task { task < P.meaning.tasks (state_of P.meaning self.now).version }
        requires other { other < P.meaning.tasks (state_of P.meaning self.now).version }
        ensures { MatchOption result ((r : ℕ) → MeetsWith P.meaning self.now.script (state_of P.meaning self.now) task other r → ⊥) (λ r. MeetsWith P.meaning self.now.script (state_of P.meaning self.now) task other r × ((k : ℕ) → k < r → MeetsWith P.meaning self.now.script (state_of P.meaning self.now) task other k → ⊥)) }
    {
        if !self.is_open(other) {
            return None;
        }
        first_meeting(
            self.stock.loaded.footprint(task),
            self.stock.loaded.writes(task),
            self.stock.loaded.footprint(other),
            self.stock.loaded.writes(other),
        )
    }

    // The least region that stands in the task's way, with the least task that has it.
    pub(crate) fn busy(&self, task: u32) -> Option<(u32, u32)>
        requires { task < P.meaning.tasks (state_of P.meaning self.now).version }
        ensures { MatchOption result (Unclaimed P.meaning self.now.script (state_of P.meaning self.now) task) (λ b. IsBusy P.meaning self.now.script (state_of P.meaning self.now) task b.0 b.1) }
    {
        let mut best: Option<(u32, u32)> = None;
        for other in 0..self.stock.loaded.task_count() {
            best = nearer(best, self.meeting(task, other), other);
        }
        best
    }
}

// The one with the lesser region; of equals the first.
fn nearer(best: Option<(u32, u32)>, region: Option<u32>, task: u32) -> Option<(u32, u32)>
    ensures { result ≡ nearer_of best region task }
{
    let Some(region) = region else {
        return best;
    };
    match best {
        None => Some((region, task)),
        Some((least, holder)) => {
            if least <= region {
                Some((least, holder))
            } else {
                Some((region, task))
            }
        }
    }
}
