//! Cycles: begun, and finished.

ghost use Rattle.std.specs.Prelude.{◌≡◌, ◌<◌, ◌≤◌, true, length, IsSome, Some, None, slice_index_or, slice_set};
ghost use Rattle.std.specs.Arc.{arc_value};
ghost use Rattle.plant_rules.specs.Meaning.{ChangesOnly, last_moment};
ghost use Rattle.plant_rules.specs.One.{answer_of};
ghost use Rattle.plant_rules.specs.History.{now_of, input_of, state_of, with_event, begun, finished, answered, is_cycle, at_play, MayBegin, Follows};
ghost use Rattle.plant_core.specs.Claim.{HasClaimed, HasRun};
ghost use Rattle.plant_core.specs.Answers.{BegunAs};

use crate::answers::{Able, Begun, Timing};
use crate::claim::{Claim, Ran};
use crate::event::{Event, What};
use crate::hub::Core;
use crate::plant_moves::{move_all, take_images};
use crate::stage::Status;
use crate::tasks::hold;
use arrayvec::ArrayVec;
use cycle_journal::{Answer, CycleReply, Entry, Play};
use plant_rules::{Controlled, Kit};
use std::snapshot::Snapshot;

fn take_kit<K>(kits: &mut Vec<Option<K>>, task: u32) -> K
    requires { IsSome (slice_index_or kits.old.items task None) }
    ensures value { slice_index_or kits.old.items task None ≡ Some result }
    ensures after { kits.new.items ≡ slice_set kits.old.items task None }
{
    match kits[task as usize].take() {
        Some(kit) => kit,
        None => unreachable!(),
    }
}

fn put_kit<K: Drop>(kits: &mut Vec<Option<K>>, task: u32, kit: K)
    requires { task < length kits.old.items }
    ensures { kits.new.items ≡ slice_set kits.old.items task (Some kit) }
{
    kits[task as usize] = Some(kit);
}

// The moment and the input of a cycle.
fn moment_in(play: &Play) -> (u32, ArrayVec<u8, 256>)
    requires { length (input_of (Some play.now)) ≤ 256 }
    ensures moment { (result.0 ≡ now_of (Some play.now)) × (result.1.items ≡ input_of (Some play.now)) }
    ensures timely { result.0 ≤ last_moment }
{
    let mut input = ArrayVec::new();
    match play {
        Play::Cycle {
            task: _,
            now,
            input: bytes,
        } => match input.try_extend_from_slice(bytes.as_slice()) {
            Ok(()) => (*now, input),
            Err(_) => unreachable!(),
        },
        Play::Change { .. } => (0, input),
        Play::Reset { .. } => (0, input),
    }
}

fn answer_in(reply: CycleReply) -> Answer
    ensures { result ≡ answer_of reply }
{
    match reply {
        CycleReply::Done { ticks, outputs } => Answer::Done { ticks, outputs },
        CycleReply::Fault(fault) => Answer::Fault(fault),
    }
}

impl<P: Controlled> Core<P> {
    /// Begins the cycle of a play.
    pub fn begin(&mut self, who: u32, play: u32) -> Begun<Claim<P>>
        requires there { play ≤ length self.old.script.plays }
        requires cycle { is_cycle (at_play P.meaning self.old.script play) ≡ true }
        ensures { BegunAs result P.meaning self.old self.new who play (λ c. (self.new ≡ with_event self.old who play (begun c.task (arc_value c.kit.shared) c.kit.carrier)) × HasClaimed P.meaning self.old.script (state_of P.meaning self.old) play c.task c.play c.now c.input.items (arc_value c.kit.shared) c.kit.carrier × P.ready (arc_value c.kit.shared) c.task c.kit.work) }
    {
        match self.place(play) {
            Timing::Twice => Begun::Twice,
            Timing::Early(q) => Begun::Early { play: q },
            Timing::Next => match self.paused() {
                Some(change) => Begun::Paused { change },
                None => match self.able(play) {
                    Able::Gone(since) => {
                        self.note(who, play, Answer::NoTask(since));
                        Begun::Answered
                    }
                    Able::Held => {
                        self.note(who, play, Answer::Held);
                        Begun::Answered
                    }
                    Able::Task(task) => match self.busy(task) {
                        Some((region, holder)) => Begun::Busy { region, holder },
                        None => Begun::Claim(self.claim(who, play, task)),
                    },
                },
            },
        }
    }

    // Makes the entry of a cycle that cannot run.
    fn note(&mut self, who: u32, play: u32, answer: Answer)
        requires { Follows P.meaning self.old.script (state_of P.meaning self.old) who play (answered answer) }
        ensures { self.new ≡ with_event self.old who play (answered answer) }
    {
        let version = self.stock.loaded.version();
        let seen = Snapshot::of(&answer);
        self.status[play as usize] = Status::Done;
        self.stock.progress.mark(play);
        self.events.push_reserved(Event {
            who,
            play,
            what: What::Answered(seen),
        });
        self.stock.entries.push_reserved(Entry {
            version,
            play,
            answer,
        });
    }

    // Begins the cycle of a play, and takes the regions of its task.
    fn claim(&mut self, who: u32, play: u32, task: u32) -> Claim<P>
        requires { MayBegin P.meaning self.old.script (state_of P.meaning self.old) play task }
        ensures event { self.new ≡ with_event self.old who play (begun task (arc_value result.kit.shared) result.kit.carrier) }
        ensures claim { HasClaimed P.meaning self.old.script (state_of P.meaning self.old) play task result.play result.now result.input.items (arc_value result.kit.shared) result.kit.carrier }
        ensures work { (result.task ≡ task) × P.ready (arc_value result.kit.shared) task result.kit.work }
    {
        let kit = take_kit(&mut self.stock.kits, task);
        let Kit {
            shared,
            work,
            mut carrier,
        } = kit;
        take_images(
            shared.footprint(task),
            shared.writes(task),
            &mut self.stock.regions,
            &mut carrier,
        );
        let taken = Snapshot::of(&carrier);
        let again = Snapshot::of(&carrier);
        let version = Snapshot::of(&*shared);
        let (now, input) = moment_in(self.stock.progress.play(play));
        self.status[play as usize] = Status::Open(who, task, again);
        self.events.push_reserved(Event {
            who,
            play,
            what: What::Begun(task, version, taken),
        });
        Claim {
            play,
            task,
            now,
            input,
            kit: Kit {
                shared,
                work,
                carrier,
            },
        }
    }

    /// Ends an open claim, with its entry: what it wrote comes home, and no other contents change.
    pub fn finish(&mut self, who: u32, ran: Ran<P>)
        requires ran { HasRun P.meaning self.old.script (state_of P.meaning self.old) who ran.play ran.task ran.now ran.input.value.items (arc_value ran.kit.shared) ran.taken.value ran.reply ran.kit.carrier }
        requires work { P.ready (arc_value ran.kit.shared) ran.task ran.kit.work }
        ensures event { self.new ≡ with_event self.old who ran.play (finished ran.reply) }
        ensures others { ChangesOnly (P.meaning.writes (state_of P.meaning self.old).version ran.task) (state_of P.meaning self.old).store (state_of P.meaning self.new).store }
    {
        let Ran {
            play,
            task,
            now: _,
            kit,
            reply,
            input: _,
            taken: _,
        } = ran;
        let Kit {
            shared,
            work,
            mut carrier,
        } = kit;
        let version = self.stock.loaded.version();
        let place = self.stock.progress.place_of_task(play);
        let seen = Snapshot::of(&reply);
        move_all(shared.writes(task), &mut carrier, &mut self.stock.regions);
        self.status[play as usize] = Status::Done;
        hold(&mut self.stock.held, &reply, place);
        self.stock.progress.mark(play);
        let kit = Kit {
            shared,
            work,
            carrier,
        };
        put_kit(&mut self.stock.kits, task, kit);
        self.events.push_reserved(Event {
            who,
            play,
            what: What::Finished(seen),
        });
        let answer = answer_in(reply);
        self.stock.entries.push_reserved(Entry {
            version,
            play,
            answer,
        });
    }
}
