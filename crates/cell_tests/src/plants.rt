//! Plants of counters.

ghost use Rattle.std.specs.Prelude.{◌≡◌, ◌≤◌, IfOk};
ghost use Rattle.std.specs.Arc.{arc_value};
ghost use Rattle.plant_core.specs.Hub.{HasShortInputs};
ghost use Rattle.plant_rules.specs.Next.{IsKit, IsNextWhole};
ghost use Rattle.plant_cell.specs.Plant.{AtRest};

use cycle_journal::Play;
use plant_cell::{Pass, Plant, PlantOver};
use plant_core::Core;
use plant_rules::{Controlled, Next};
use plc_text::{Items, NoMemory, Text};
use st_names::Names;
use std::alloc::Global;
use std::sync::Arc;

/// A plant of a first version and a script, with its first pass.
pub fn make_plant<P: Controlled>(
    alloc: Global,
    first: Next<P>,
    plays: Arc<Items<Play>>,
    sources: Arc<Names<Text>>,
    phases: Arc<Items<(u32, u32)>>,
    passes: u32,
) -> Result<(Plant<P>, Pass<P>), NoMemory>
    requires inputs { HasShortInputs (arc_value plays) }
    requires whole { IsNextWhole P.meaning (λ t k. IsKit P.meaning P.ready (arc_value first.loaded) t (arc_value k.shared) k.work k.carrier) (arc_value first.loaded) (arc_value first.for_change) first.regions first.kits.items }
    requires passes { (1 ≤ passes) × (passes ≤ 64) }
    ensures plant { IfOk result (λ r. (r.1.seat.table_id ≡ r.0.table.shared.table_id) × (r.0.table.shared.key.0.value.script.plays ≡ arc_value plays)) }
    ensures rest { IfOk result (λ r. AtRest P.meaning r.0.table.shared.key.0.value r.0.passes r.1.numbers.items r.1.seat.me) }
{
    let core = Core::new(alloc, first, plays, sources, phases)?;
    let made = PlantOver::new(alloc, core, passes)?;
    Ok(made)
}
