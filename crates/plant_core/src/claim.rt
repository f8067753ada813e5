//! A cycle that has been claimed, and one that has run.

ghost use Rattle.std.specs.Prelude.{◌≡◌, ◌<◌};
ghost use Rattle.std.specs.Arc.{arc_value};
ghost use Rattle.plant_rules.specs.Meaning.{FitOn};

use arrayvec::ArrayVec;
use cycle_journal::CycleReply;
use mem_image::Regions;
use plant_rules::{Controlled, Kit};
use std::snapshot::Snapshot;

/// A cycle that may run: it has all that its task reads, and alone what the task writes.
#[derive(Drop)]
pub struct Claim<P: Controlled> {
    pub play: u32,
    pub task: u32,
    /// The moment, in milliseconds.
    pub now: u32,
    pub input: ArrayVec<u8, 256>,
    pub kit: Kit<P, P::Work>,
}

/// A cycle that has run. Contracts also see its input and the contents on which it ran.
#[derive(Drop)]
pub struct Ran<P: Controlled> {
    pub play: u32,
    pub task: u32,
    pub now: u32,
    pub kit: Kit<P, P::Work>,
    pub reply: CycleReply,
    pub input: Snapshot<ArrayVec<u8, 256>>,
    pub taken: Snapshot<Regions>,
}

impl<P: Controlled> Claim<P> {
    /// Runs the cycle, on the thread of the caller.
    pub fn run(self) -> Ran<P>
        requires task { self.task < P.meaning.tasks (arc_value self.kit.shared) }
        requires work { P.ready (arc_value self.kit.shared) self.task self.kit.work }
        requires fit { FitOn (P.meaning.fit (arc_value self.kit.shared)) (P.meaning.reads (arc_value self.kit.shared) self.task) self.kit.carrier }
        ensures same { (result.play ≡ self.play) × (result.task ≡ self.task) × (result.now ≡ self.now) × (result.input.value ≡ self.input) × (arc_value result.kit.shared ≡ arc_value self.kit.shared) }
        ensures taken { result.taken.value ≡ self.kit.carrier }
        ensures work { P.ready (arc_value self.kit.shared) self.task result.kit.work }
        ensures reply { result.reply ≡ P.meaning.reply_of (arc_value self.kit.shared) self.task self.now self.input.items self.kit.carrier }
        ensures left { result.kit.carrier ≡ P.meaning.left_by (arc_value self.kit.shared) self.task self.now self.input.items self.kit.carrier }
    {
        let Claim {
            play,
            task,
            now,
            input,
            kit,
        } = self;
        let Kit {
            shared,
            mut work,
            mut carrier,
        } = kit;
        let taken = Snapshot::of(&carrier);
        let reply = shared.run(task, now, input.as_slice(), &mut work, &mut carrier);
        let kit = Kit {
            shared,
            work,
            carrier,
        };
        Ran {
            play,
            task,
            now,
            kit,
            reply,
            input: Snapshot::of(&input),
            taken,
        }
    }
}
