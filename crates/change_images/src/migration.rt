//! The five phases of a change. They take no memory.

ghost use Rattle.std.specs.Prelude.{◌≡◌, map};
ghost use Rattle.change_images.specs.Apply.{AreAlike, PlanLies, plan_of, come_by, phases_by, ArePhases, IsChanged};

use crate::carrying::{RegionMoves, carry_regions};
use crate::hooks::{Halt, RunsHooks, run_hooks};
use crate::saving::save;
use image_moves::Relocates;
use mem_image::Regions;
use plc_text::Items;

/// What the hooks of one change share.
const TICKS: u32 = 100_000;

/// What a change does: the hooks of the old and of the new program, and the moves of regions that are kept and of the others.
#[derive(Drop)]
pub struct Plan<A: Drop, B: Drop> {
    pub exits: Items<A>,
    pub inits: Items<B>,
    pub reinits: Items<B>,
    pub kept: Items<Option<RegionMoves>>,
    pub copied: Items<Option<RegionMoves>>,
}

/// The inits, the copy and the reinits.
fn come<A: RunsHooks, B: RunsHooks, R: Relocates>(
    old: &A,
    new: &B,
    relocation: &R,
    plan: &Plan<A::Call, B::Call>,
    olds: &Regions,
    news: &mut Regions,
    ticks: u32,
) -> Result<(), Halt>
    requires { PlanLies (plan_of plan.now.copied) olds.now news.old }
    ensures { ArePhases (A.program old.now) (B.program new.now) result news.new (come_by (A.run old.now) (B.run new.now) (R.by relocation.now) (map B.hook plan.now.inits) (map B.hook plan.now.reinits) (plan_of plan.now.copied) olds.now news.old ticks) }
{
    match run_hooks(new, plan.inits.as_slice(), news, ticks) {
        Err(stop) => Err(Halt { old: false, stop }),
        Ok(left) => {
            carry_regions(plan.copied.as_slice(), relocation, olds, news);
            match run_hooks(new, plan.reinits.as_slice(), news, left) {
                Err(stop) => Err(Halt { old: false, stop }),
                Ok(_) => Ok(()),
            }
        }
    }
}

/// The five phases.
fn phases<A: RunsHooks, B: RunsHooks, R: Relocates>(
    old: &A,
    new: &B,
    relocation: &R,
    plan: &Plan<A::Call, B::Call>,
    olds: &mut Regions,
    news: &mut Regions,
) -> Result<(), Halt>
    requires kept { PlanLies (plan_of plan.now.kept) olds.old news.old }
    requires copied { PlanLies (plan_of plan.now.copied) olds.old news.old }
    ensures { ArePhases (A.program old.now) (B.program new.now) result news.new (phases_by (A.run old.now) (B.run new.now) (R.by relocation.now) (map A.hook plan.now.exits) (map B.hook plan.now.inits) (map B.hook plan.now.reinits) (plan_of plan.now.kept) (plan_of plan.now.copied) news.old olds.old) }
{
    match run_hooks(old, plan.exits.as_slice(), olds, TICKS) {
        Err(stop) => Err(Halt { old: true, stop }),
        Ok(left) => {
            carry_regions(plan.kept.as_slice(), relocation, olds, news);
            come(old, new, relocation, plan, olds, news, left)
        }
    }
}

/// Carries out a change: the new images, or the fault of a hook and the old images byte for byte. `saved` has room for these.
pub fn apply<A: RunsHooks, B: RunsHooks, R: Relocates>(
    old: &A,
    new: &B,
    relocation: &R,
    plan: &Plan<A::Call, B::Call>,
    olds: Regions,
    fresh: Regions,
    saved: Regions,
) -> Result<Regions, (Regions, Halt)>
    requires room { AreAlike olds saved }
    requires kept { PlanLies (plan_of plan.now.kept) olds fresh }
    requires copied { PlanLies (plan_of plan.now.copied) olds fresh }
    ensures { IsChanged (A.program old.now) (B.program new.now) result olds (phases_by (A.run old.now) (B.run new.now) (R.by relocation.now) (map A.hook plan.now.exits) (map B.hook plan.now.inits) (map B.hook plan.now.reinits) (plan_of plan.now.kept) (plan_of plan.now.copied) fresh olds) }
{
    let mut olds = olds;
    let mut news = fresh;
    let mut saved = saved;
    save(&olds, &mut saved);
    match phases(old, new, relocation, plan, &mut olds, &mut news) {
        Ok(()) => Ok(news),
        Err(halt) => Err((saved, halt)),
    }
}
