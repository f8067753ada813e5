//! Regions carried by the plan.

ghost use Rattle.std.specs.Prelude.{◌≡◌, ◌<◌, length, Some};
ghost use Rattle.std.specs.Option.{option_copied};
ghost use Rattle.change_images.specs.Images.{carry_images};
ghost use Rattle.change_images.specs.Apply.{plan_of, PlanLies, SameLengths, source_of, carried_at, Lies};

use image_moves::{Move, Relocates, apply_moves};
use mem_image::Regions;
use plc_text::Items;

/// Where a new region comes from, and the moves.
#[derive(Drop)]
pub struct RegionMoves {
    pub source: u32,
    pub moves: Items<Move>,
}

/// Carries one region.
fn carry_region<R: Relocates>(
    plan: &RegionMoves,
    relocation: &R,
    olds: &Regions,
    region: u32,
    news: &mut Regions,
)
    requires region { region < length news.old }
    requires lies { Lies olds.now news.old region (source_of (Some plan.now)) }
    ensures { news.new ≡ carried_at (R.by relocation.now) olds.now region (source_of (Some plan.now)) news.old }
{
    let Some(source) = olds.at(plan.source) else {
        return;
    };
    let Some(image) = news.at_mut(region) else {
        return;
    };
    apply_moves(plan.moves.as_slice(), relocation, source, 0, 0, image);
}

/// The moves of a region, where the plan has any.
fn moves_for(plan: &[Option<RegionMoves>], region: u32) -> Option<&RegionMoves>
    ensures { source_of (option_copied result) ≡ plan_of plan.now region }
{
    match plan.get(region as usize) {
        Some(moves) => moves.as_ref(),
        None => None,
    }
}

/// Carries one region, where the plan has moves for it.
fn carry_step<R: Relocates>(
    plan: &[Option<RegionMoves>],
    relocation: &R,
    olds: &Regions,
    region: u32,
    news: &mut Regions,
)
    requires region { region < length news.old }
    requires lies { Lies olds.now news.old region (plan_of plan.now region) }
    ensures { news.new ≡ carried_at (R.by relocation.now) olds.now region (plan_of plan.now region) news.old }
{
    match moves_for(plan, region) {
        Some(moves) => carry_region(moves, relocation, olds, region, news),
        None => {}
    }
}

/// Carries the regions that the plan has moves for. Takes no memory.
pub fn carry_regions<R: Relocates>(
    plan: &[Option<RegionMoves>],
    relocation: &R,
    olds: &Regions,
    news: &mut Regions,
)
    requires { PlanLies (plan_of plan.now) olds.now news.old }
    ensures after { news.new ≡ carry_images (R.by relocation.now) (plan_of plan.now) olds.now news.old }
    ensures lengths { SameLengths news.old news.new }
{
    let count = news.len();
    for region in 0..count {
        carry_step(plan, relocation, olds, region, news);
    }
}
