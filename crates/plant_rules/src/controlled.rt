//! A program in one version, and the laws that it keeps.

ghost use Rattle.std.specs.Prelude.{◌≡◌, ℕ, ◌+◌, ◌<◌, ◌≤◌, ◌^◌, List, length, Ok, Err, IfOk, IfErr};
ghost use Rattle.std.specs.Arc.{arc_value};
ghost use Rattle.plant_rules.specs.Meaning.{FitOn, IsUndenied, Whole};
ghost use Rattle.plant_rules.specs.Next.{IsKit, IsSupplied};
ghost use Rattle.plant_rules.specs.Denial.{OnRefused};

use cycle_journal::CycleReply;
use mem_image::Regions;
use plc_text::{Denied, Refusal, Text};
use std::alloc::Global;
use std::sync::Arc;

/// What a task's cycle needs: the version, room to run in, and a place for each region. It has no bound, so that a change may own
/// kits of the version that it makes.
#[derive(Drop)]
pub struct Kit<P, K> {
    pub shared: Arc<P, Global>,
    pub work: K,
    pub carrier: Regions,
}

/// A version with its contents, and what its core needs, so that the core takes no memory for it.
#[derive(Drop)]
pub struct Next<P: Controlled> {
    pub loaded: Arc<P, Global>,
    /// The same version again, for the next change.
    pub for_change: Arc<P, Global>,
    pub regions: Regions,
    /// A kit for each task, in order.
    pub kits: Vec<Option<Kit<P, P::Work>>>,
}

/// What a change that is refused gives back: the change is used up, the contents are as they were.
#[derive(Drop)]
pub struct Backed<P: Controlled> {
    pub change: P::Change,
    pub regions: Regions,
    pub refusal: Refusal,
}

/// A program in one version. Tasks and regions are numbered from 0.
pub trait Controlled: Sized + Drop {
    /// A change to a text that was accepted, with all the memory that it takes to carry it out.
    type Change: Drop;

    /// Room for the cycles of a task.
    type Work: Drop;

    ghost use Rattle.std.specs.Prelude.{ℕ, List};
    ghost use Rattle.plant_rules.specs.Meaning.{Meaning, Frames};

    /// What versions mean.
    ghost meaning: { Meaning Self };

    /// The room is this version's for this task.
    ghost ready: { Self → ℕ → Self.Work → Type 0 };

    /// The version that a change was prepared from.
    ghost base_of: { Self.Change → Self };

    /// The text that it was prepared for.
    ghost text_of: { Self.Change → List ℕ };

    /// It is not used up.
    ghost fresh: { Self.Change → Type 0 };

    /// The version's number, from 1.
    fn version(&self) -> u32
        ensures number { result ≡ meaning.number self.now }
        ensures right { meaning.right self.now };

    fn region_count(&self) -> u32
        ensures { result ≡ meaning.region_total self.now };

    fn task_count(&self) -> u32
        ensures { result ≡ meaning.tasks self.now };

    /// The task of this name, which is in upper case.
    fn task_named(&self, name: &Text) -> Option<u32>
        ensures { result ≡ meaning.named self.now name.now };

    /// The regions on which the task's cycles depend, rising.
    fn footprint(&self, task: u32) -> &[u32]
        requires { task < meaning.tasks self.now }
        ensures { result.now ≡ meaning.reads self.now task };

    /// Those of the footprint that its cycles may write, rising.
    fn writes(&self, task: u32) -> &[u32]
        requires { task < meaning.tasks self.now }
        ensures { result.now ≡ meaning.writes self.now task };

    /// Runs a cycle at the moment, in milliseconds. The regions outside of the footprint may be away.
    fn run(
        &self,
        task: u32,
        now: u32,
        input: &[u8],
        work: &mut Self::Work,
        regions: &mut Regions,
    ) -> CycleReply
        requires task { task < meaning.tasks self.now }
        requires input { length input.now ≤ 256 }
        requires work { ready self.now task work.old }
        requires fit { FitOn (meaning.fit self.now) (meaning.reads self.now task) regions.old }
        ensures work { ready self.now task work.new }
        ensures reply { result ≡ meaning.reply_of self.now task now input.now regions.old }
        ensures after { regions.new ≡ meaning.left_by self.now task now input.now regions.old };

    /// Prepares a change to the text, or tells why the text is refused.
    fn prepare(&self, alloc: Global, text: &Text) -> Result<Self::Change, Denied>
        requires { meaning.number self.now + 1 < 2 ^ 32 }
        ensures ok { IfOk result (λ c. (base_of c ≡ self.now) × (text_of c ≡ text.now) × fresh c) }
        ensures accepted { IfOk result (λ c. IsUndenied meaning self.now text.now) }
        ensures err { IfErr result (λ d. OnRefused d (meaning.denied self.now text.now)) };

    /// The number of the version that the change was prepared from.
    fn prepared_for(change: &Self::Change) -> u32
        ensures { result ≡ meaning.number (base_of change.now) };

    /// Carries the change out on the contents of all regions.
    fn apply(&self, change: Self::Change, regions: Regions) -> Result<Next<Self>, Backed<Self>>
        requires base { base_of change ≡ self.now }
        requires fresh { fresh change }
        requires whole { Whole (meaning.fit self.now) (meaning.region_total self.now) regions }
        ensures ok { IfOk result (λ n. meaning.changed self.now (text_of change) regions (Ok (arc_value n.loaded, n.regions))) }
        ensures supplied { IfOk result (λ n. IsSupplied meaning (λ t k. IsKit meaning ready (arc_value n.loaded) t (arc_value k.shared) k.work k.carrier) (arc_value n.loaded) (arc_value n.for_change) n.kits.items) }
        ensures err { IfErr result (λ b. meaning.changed self.now (text_of change) regions (Err b.refusal) × (b.regions ≡ regions) × (base_of b.change ≡ self.now) × (text_of b.change ≡ text_of change)) };

    /// The laws of this meaning.
    ghost frames: { Frames meaning };
}
