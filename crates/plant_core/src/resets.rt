//! Resets.

ghost use Rattle.std.specs.Prelude.{◌≡◌, ◌≤◌, true, length};
ghost use Rattle.plant_rules.specs.History.{state_of, with_event, reset, is_reset, at_play, Resets, Follows};
ghost use Rattle.plant_core.specs.Answers.{ResetAs};

use crate::answers::{Able, ResetDone, Timing};
use crate::event::{Event, What};
use crate::hub::Core;
use crate::stage::Status;
use crate::tasks::let_go;
use cycle_journal::{Answer, Entry};
use plant_rules::Controlled;
use std::snapshot::Snapshot;

impl<P: Controlled> Core<P> {
    fn reset_answer(&self, play: u32) -> Answer
        requires from { 1 ≤ play }
        requires to { play ≤ length self.now.script.plays }
        requires reset { is_reset (at_play P.meaning self.now.script play) ≡ true }
        ensures { Resets P.meaning self.now.script (state_of P.meaning self.now) play result }
    {
        match self.able(play) {
            Able::Gone(since) => Answer::NoTask(since),
            Able::Held => Answer::Released,
            Able::Task(_) => Answer::Released,
        }
    }

    fn note_reset(&mut self, who: u32, play: u32, answer: Answer)
        requires { Follows P.meaning self.old.script (state_of P.meaning self.old) who play (reset answer) }
        ensures { self.new ≡ with_event self.old who play (reset answer) }
    {
        let version = self.stock.loaded.version();
        let place = self.stock.progress.place_of_task(play);
        let seen = Snapshot::of(&answer);
        self.status[play as usize] = Status::Done;
        self.stock.progress.mark(play);
        let_go(&mut self.stock.held, &answer, place);
        self.events.push_reserved(Event {
            who,
            play,
            what: What::Reset(seen),
        });
        self.stock.entries.push_reserved(Entry {
            version,
            play,
            answer,
        });
    }

    /// Makes the entry of a reset, after which its task is not held.
    pub fn reset(&mut self, who: u32, play: u32) -> ResetDone
        requires there { play ≤ length self.old.script.plays }
        requires reset { is_reset (at_play P.meaning self.old.script play) ≡ true }
        ensures { ResetAs P.meaning self.old self.new who play result }
    {
        match self.place_once(play) {
            Timing::Twice => ResetDone::Twice,
            Timing::Early(q) => ResetDone::Early { play: q },
            Timing::Next => {
                let answer = self.reset_answer(play);
                self.note_reset(who, play, answer);
                ResetDone::Made
            }
        }
    }
}
