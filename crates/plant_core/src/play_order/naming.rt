//! The lists of plays as numbers: 0 for changes, then one for each task name.

ghost use Rattle.std.specs.Prelude.{◌≡◌, ◌+◌, ◌<◌, ◌^◌, length, slice_get, Some, IfOk};
ghost use Rattle.std.specs.Map.{keys_of};
ghost use Rattle.cycle_journal.specs.Interleaving.{lane_of};
ghost use Rattle.plant_core.specs.play_order.Private.Tables.{Grows, IsLane, HaveLanes};

use cycle_journal::Play;
use plc_text::{NoMemory, Text};
use st_names::Names;
use std::alloc::Global;

// The place of the name, which is added where it is not there.
fn place_of(alloc: Global, names: &mut Names<()>, name: &Text) -> Result<u32, NoMemory>
    ensures grows { IfOk result (λ n. Grows (keys_of names.old) (keys_of names.new)) }
    ensures place { IfOk result (λ n. slice_get (keys_of names.new) n ≡ Some name.now) }
{
    if let Some(n) = names.find(name) {
        return Ok(n);
    }
    let key = Text::copy(alloc, name.as_str())?;
    let Ok(n) = names.add(key, ()) else {
        return Err(NoMemory);
    };
    Ok(n)
}

// The number of the list that the play is in.
fn lane_number(alloc: Global, names: &mut Names<()>, play: &Play) -> Result<u32, NoMemory>
    ensures grows { IfOk result (λ l. Grows (keys_of names.old) (keys_of names.new)) }
    ensures lane { IfOk result (λ l. IsLane (keys_of names.new) (lane_of play.now) l) }
{
    match play {
        Play::Change { .. } => Ok(0),
        Play::Cycle { task, .. } | Play::Reset { task } => {
            let n = place_of(alloc, names, task)?;
            n.checked_add(1).ok_or(NoMemory)
        }
    }
}

/// The number of the list that each play is in, behind a 0 for the play of number 0, which is none.
pub fn lane_numbers(
    alloc: Global,
    names: &mut Names<()>,
    plays: &[Play],
) -> Result<Vec<u32>, NoMemory>
    ensures { IfOk result (λ lanes. HaveLanes (keys_of names.new) plays.now lanes.items) }
{
    let mut lanes = Vec::with_capacity(alloc, plays.len() + 1)?;
    lanes.push(0)?;
    for play in plays {
        let lane = lane_number(alloc, names, play)?;
        lanes.push(lane)?;
    }
    Ok(lanes)
}
