//! What is noted of tasks by their names: which are held, and since when one is gone.

ghost use Rattle.std.specs.Prelude.{◌≡◌, ◌<◌, ◌^◌, length};
ghost use Rattle.plant_rules.specs.One.{since_by};
ghost use Rattle.plant_core.specs.Private.Tasks.{held_by, freed_by, AreFree, AreRenewed};

use crate::play_order::Progress;
use cycle_journal::{Answer, CycleReply};
use plant_rules::Controlled;

/// After a fault the task is held.
pub fn hold(held: &mut Vec<bool>, reply: &CycleReply, place: u32)
    requires { place < length held.old.items }
    ensures { held.new.items ≡ held_by reply.now place held.old.items }
{
    if let CycleReply::Fault(_) = reply {
        held[place as usize] = true;
    }
}

/// After a reset the task is not held.
pub fn let_go(held: &mut Vec<bool>, answer: &Answer, place: u32)
    requires { place < length held.old.items }
    ensures { held.new.items ≡ freed_by answer.now place held.old.items }
{
    if let Answer::Released = answer {
        held[place as usize] = false;
    }
}

/// No task is held.
pub fn release(held: &mut Vec<bool>)
    ensures { AreFree held.old.items held.new.items (length held.new.items) }
{
    for n in 0..held.len() {
        held[n] = false;
    }
}

fn since_one(was: Option<u32>, is: Option<u32>, number: u32, since: u32) -> u32
    ensures { result ≡ since_by is was number since }
{
    match is {
        Some(_) => 0,
        None => match was {
            Some(_) => number,
            None => since,
        },
    }
}

/// Since when each task is gone, with one more version.
pub fn renew<P: Controlled>(
    since: &mut Vec<u32>,
    progress: &Progress,
    old: &P,
    new: &P,
    number: u32,
)
    requires all { length since.old.items ≡ length progress.now.names }
    ensures { AreRenewed P.meaning progress.now.names old.now new.now number since.old.items since.new.items (length since.new.items) }
{
    for n in 0..progress.name_count() {
        let name = progress.name(n);
        let one = since_one(
            old.task_named(name),
            new.task_named(name),
            number,
            since[n as usize],
        );
        since[n as usize] = one;
    }
}
