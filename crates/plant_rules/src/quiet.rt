//! A version with all its regions, in between two versions.

ghost use Rattle.std.specs.Prelude.{◌≡◌, Ok, Err, IfOk, IfErr};
ghost use Rattle.std.specs.Arc.{arc_value};
ghost use Rattle.plant_rules.specs.Meaning.{Whole};
ghost use Rattle.plant_rules.specs.Next.{IsKit, IsSupplied};

use crate::controlled::{Backed, Controlled, Next};
use mem_image::Regions;
use plc_text::Refusal;
use std::alloc::Global;
use std::snapshot::Snapshot;
use std::sync::Arc;

/// The old version with all regions, and the change.
#[derive(Drop)]
pub struct Quiet<P: Controlled> {
    pub old: Arc<P, Global>,
    pub regions: Regions,
    pub change: P::Change,
}

/// The next version with all regions. Contracts also see the contents that it came from.
#[derive(Drop)]
pub struct Migrated<P: Controlled> {
    pub next: Next<P>,
    pub from: Snapshot<Regions>,
}

impl<P: Controlled> Quiet<P> {
    /// Carries the change out. Where it is refused, the old version has its contents back, and the change is used up.
    pub fn migrate(self) -> Result<Migrated<P>, (Quiet<P>, Refusal)>
        requires base { P.base_of self.change ≡ arc_value self.old }
        requires fresh { P.fresh self.change }
        requires whole { Whole (P.meaning.fit (arc_value self.old)) (P.meaning.region_total (arc_value self.old)) self.regions }
        ensures ok { IfOk result (λ n. P.meaning.changed (arc_value self.old) (P.text_of self.change) self.regions (Ok (arc_value n.next.loaded, n.next.regions))) }
        ensures supplied { IfOk result (λ n. IsSupplied P.meaning (λ t k. IsKit P.meaning P.ready (arc_value n.next.loaded) t (arc_value k.shared) k.work k.carrier) (arc_value n.next.loaded) (arc_value n.next.for_change) n.next.kits.items) }
        ensures from { IfOk result (λ n. n.from.value ≡ self.regions) }
        ensures err { IfErr result (λ q. P.meaning.changed (arc_value self.old) (P.text_of self.change) self.regions (Err q.1) × (q.0.regions ≡ self.regions) × (arc_value q.0.old ≡ arc_value self.old) × (P.base_of q.0.change ≡ arc_value self.old) × (P.text_of q.0.change ≡ P.text_of self.change)) }
    {
        let Quiet {
            old,
            regions,
            change,
        } = self;
        let from = Snapshot::of(&regions);
        match old.apply(change, regions) {
            Ok(next) => Ok(Migrated { next, from }),
            Err(backed) => {
                let Backed {
                    change,
                    regions,
                    refusal,
                } = backed;
                let quiet = Quiet {
                    old,
                    regions,
                    change,
                };
                Err((quiet, refusal))
            }
        }
    }
}
