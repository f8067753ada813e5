//! How far a play has come, and the change at hand.

ghost use Rattle.std.specs.Prelude.{◌≡◌, ◌∷◌, IfOk, replicate};
ghost use Rattle.plant_core.specs.declared.stage.Status.TheVariants.{Idle, Done};

use mem_image::Regions;
use plc_text::NoMemory;
use std::alloc::Global;
use std::snapshot::Snapshot;

/// Of an open play its caller, its task and the contents taken.
#[derive(Drop)]
pub enum Status {
    Idle,
    Open(u32, u32, Snapshot<Regions>),
    Done,
}

/// The change that is wanted or under way: its play and its caller, and the contents taken.
#[derive(Drop)]
pub enum Ongoing {
    Free,
    Wanted(u32, u32),
    UnderWay(u32, u32, Snapshot<Regions>),
}

/// No play has begun. The place of the number 0, which is no play's, is done.
pub fn all_idle(alloc: Global, plays: usize) -> Result<Vec<Status>, NoMemory>
    ensures { IfOk result (λ v. v.items ≡ Done ∷ replicate plays Idle) }
{
    let mut status = Vec::with_capacity(alloc, plays)?;
    status.push(Status::Done)?;
    for _ in 0..plays {
        status.push(Status::Idle)?;
    }
    Ok(status)
}
