//! Three counters of a byte each, and a fourth that changes add and take away.

ghost use Rattle.std.specs.Prelude.{◌≡◌, ℕ, ◌+◌, ◌<◌, ◌≤◌, length, nat_eq, IfOk, Some, None, true, false, ◌∷◌, [], slice_set};
ghost use Rattle.std.specs.Arc.{arc_value};
ghost use Rattle.plant_rules.specs.Meaning.{bytes_at};
ghost use Rattle.plant_rules.specs.Next.{AllKits, IsKit, IsNextWhole};
ghost use Rattle.plant_tests.specs.plant_counters.Counting.{byte_in, byte_of, carrier_by, counters, empty_refusal, fourth, is_wide, places_by, resized, stop_refusal, total, total_by, IsCounter};
ghost use Rattle.plant_tests.specs.plant_counters.Drafting.{IsDraft};

use cycle_journal::{CycleReply, Outputs};
use mem_image::{Image, Regions};
use plant_rules::{Backed, Controlled, Kit, Next};
use plc_text::{Code, Denied, Fault, FaultKind, NoMemory, Refusal, Text};
use std::alloc::Global;
use std::sync::Arc;

/// A version: its number, and whether it has the fourth counter.
#[derive(Drop)]
pub struct Counters {
    pub number: u32,
    pub wide: bool,
}

/// A change: the version and the text that it was prepared for, and all that it takes to carry it out.
#[derive(Drop)]
pub struct Draft {
    pub base: Counters,
    pub text: Text,
    pub next: Arc<Counters, Global>,
    pub for_change: Arc<Counters, Global>,
    pub kits: Vec<Option<Kit<Counters, ()>>>,
    pub room: Regions,
    pub extra: Image,
    pub refusal: Option<Refusal>,
}

static READS: [[u32; 2]; 2] = [[0, 2], [1, 2]];

static GATE: [u32; 1] = [2];

static LAST: [u32; 2] = [2, 3];

static WRITES: [[u32; 1]; 4] = [[0], [1], [2], [3]];

fn first_of(bytes: &[u8]) -> u8
    ensures { result ≡ byte_in bytes.now }
{
    match bytes {
        [] => 0,
        [first, ..] => *first,
    }
}

fn total_of(wide: bool) -> u32
    ensures { result ≡ total_by wide }
{
    if wide { 4 } else { 3 }
}

fn byte_at(regions: &Regions, region: u32) -> u8
    requires { (bytes : _) × (bytes_at regions.now region ≡ Some bytes) × IsCounter bytes }
    ensures { result ≡ byte_of (bytes_at regions.now region) }
{
    match regions.at(region) {
        Some(image) => first_of(image.part(0, 1)),
        None => unreachable!(),
    }
}

fn set_byte(regions: &mut Regions, region: u32, byte: u8)
    requires { (bytes : _) × (bytes_at regions.old region ≡ Some bytes) × IsCounter bytes }
    ensures { regions.new ≡ slice_set regions.old region (Some (byte ∷ [])) }
{
    match regions.take(region) {
        Some(mut image) => {
            image.fill_from(0, &[byte]);
            regions.put(region, image);
        }
        None => unreachable!(),
    }
}

fn places(alloc: Global, wide: bool) -> Result<Regions, NoMemory>
    ensures { IfOk result (λ c. c ≡ places_by wide) }
{
    Regions::new(alloc, total_of(wide))
}

fn kit(
    alloc: Global,
    shared: &Arc<Counters, Global>,
    task: u32,
) -> Result<Kit<Counters, ()>, NoMemory>
    ensures { IfOk result (λ k. (arc_value k.shared ≡ arc_value shared.now) × (k.carrier ≡ carrier_by (arc_value shared.now).wide (nat_eq task 2))) }
{
    let mut carrier = places(alloc, shared.wide)?;
    if task != 2 {
        let image = Image::new(alloc, 1)?;
        carrier.put(2, image);
    }
    let shared = shared.clone()?;
    Ok(Kit {
        shared,
        work: (),
        carrier,
    })
}

fn kits(
    alloc: Global,
    shared: &Arc<Counters, Global>,
) -> Result<Vec<Option<Kit<Counters, ()>>>, NoMemory>
    ensures { IfOk result (λ v. AllKits v.items (total (arc_value shared.now)) (λ t k. IsKit counters (λ _ _ _. Unit {0}) (arc_value shared.now) t (arc_value k.shared) k.work k.carrier)) }
{
    let total = total_of(shared.wide);
    let mut kits = Vec::with_capacity(alloc, total as usize)?;
    for task in 0..total {
        let one = kit(alloc, shared, task)?;
        kits.push_reserved(Some(one));
    }
    Ok(kits)
}

fn refuse(alloc: Global) -> Result<Refusal, NoMemory>
    ensures { IfOk result (λ r. r ≡ empty_refusal) }
{
    let declaration = Text::copy(alloc, "-")?;
    Ok(Refusal {
        code: Code::E02,
        declaration,
        line: 1,
        kind: None,
    })
}

fn stop(alloc: Global) -> Result<Refusal, NoMemory>
    ensures { IfOk result (λ r. r ≡ stop_refusal) }
{
    let declaration = Text::copy(alloc, "A")?;
    Ok(Refusal {
        code: Code::E17,
        declaration,
        line: 1,
        kind: Some(FaultKind::Null),
    })
}

// The image of the fourth counter, or a new one where there is none.
fn take_fourth(from: &mut Regions, extra: Image) -> Image
    requires { extra ≡ 0 ∷ [] }
    ensures { Some result ≡ fourth (bytes_at from.old 3) }
{
    if from.len() <= 3 {
        return extra;
    }
    match from.take(3) {
        Some(image) => image,
        None => extra,
    }
}

fn carry(r: u32, from: &mut Regions, to: &mut Regions)
    requires from { r < length from.old }
    requires to { r < length to.old }
    requires empty { bytes_at to.old r ≡ None }
    ensures from { from.new ≡ slice_set from.old r None }
    ensures to { to.new ≡ slice_set to.old r (bytes_at from.old r) }
{
    if let Some(image) = from.take(r) {
        to.put(r, image);
    }
}

fn resize(mut from: Regions, mut to: Regions, wide: bool, extra: Image) -> Regions
    requires from { 3 ≤ length from }
    requires to { to ≡ places_by wide }
    requires extra { extra ≡ 0 ∷ [] }
    ensures { result ≡ resized wide from }
{
    carry(0, &mut from, &mut to);
    carry(1, &mut from, &mut to);
    carry(2, &mut from, &mut to);
    if wide {
        let image = take_fourth(&mut from, extra);
        to.put(3, image);
    }
    to
}

fn make_draft(alloc: Global, base: Counters, text: &Text) -> Result<Draft, NoMemory>
    requires few { base.number + 1 < 4294967296 }
    requires some { text.now ≡ [] → ⊥ }
    ensures is { IfOk result (λ d. (d.base ≡ base) × (d.text ≡ text.now)) }
    ensures fresh { IfOk result (λ d. IsDraft d.base d.text (arc_value d.next) (arc_value d.for_change) d.kits.items (λ t k. IsKit counters (λ _ _ _. Unit {0}) (arc_value d.next) t (arc_value k.shared) k.work k.carrier) d.room d.extra d.refusal) }
{
    let wide = first_of(text.as_bytes()) == 43;
    let text = Text::copy(alloc, text.as_str())?;
    let number = base.number + 1;
    let next = Arc::new(alloc, Counters { number, wide })?;
    let for_change = next.clone()?;
    let kits = kits(alloc, &next)?;
    let room = places(alloc, wide)?;
    let extra = Image::new(alloc, 1)?;
    let refusal = Some(stop(alloc)?);
    Ok(Draft {
        base,
        text,
        next,
        for_change,
        kits,
        room,
        extra,
        refusal,
    })
}

impl Counters {
    /// Version 1: three counters, all at 0.
    pub fn first(alloc: Global) -> Result<Next<Counters>, NoMemory>
        ensures is { IfOk result (λ n. (arc_value n.loaded ≡ record { number = 1; wide = false }) × (n.regions ≡ Some (0 ∷ []) ∷ Some (0 ∷ []) ∷ Some (0 ∷ []) ∷ [])) }
        ensures whole { IfOk result (λ n. IsNextWhole counters (λ t k. IsKit counters (λ _ _ _. Unit {0}) (arc_value n.loaded) t (arc_value k.shared) k.work k.carrier) (arc_value n.loaded) (arc_value n.for_change) n.regions n.kits.items) }
    {
        let loaded = Arc::new(
            alloc,
            Counters {
                number: 1,
                wide: false,
            },
        )?;
        let for_change = loaded.clone()?;
        let kits = kits(alloc, &loaded)?;
        let mut regions = places(alloc, false)?;
        let image = Image::new(alloc, 1)?;
        regions.put(0, image);
        let image = Image::new(alloc, 1)?;
        regions.put(1, image);
        let image = Image::new(alloc, 1)?;
        regions.put(2, image);
        Ok(Next {
            loaded,
            for_change,
            regions,
            kits,
        })
    }
}

impl Controlled for Counters {
    type Change = Draft;

    type Work = ();

    ghost use Rattle.std.specs.Prelude.{ℕ, List};
    ghost use Rattle.std.specs.Arc.{arc_value};
    ghost use Rattle.plant_rules.specs.Next.{IsKit};
    ghost use Rattle.plant_tests.specs.plant_counters.Drafting.{IsDraft};
    ghost use Rattle.plant_tests.specs.plant_counters.Counting.{counters};
    ghost use Rattle.plant_tests.specs.plant_counters.CountingLaws.{counters_frame};

    ghost meaning = { counters };

    ghost ready = { λ _ _ _. Unit {0} };

    ghost base_of = { λ d. d.base };

    ghost text_of = { λ d. d.text };

    ghost fresh = { λ d. IsDraft d.base d.text (arc_value d.next) (arc_value d.for_change) d.kits.items (λ t k. IsKit counters (λ _ _ _. Unit {0}) (arc_value d.next) t (arc_value k.shared) k.work k.carrier) d.room d.extra d.refusal };

    fn version(&self) -> u32 {
        self.number
    }

    fn region_count(&self) -> u32 {
        total_of(self.wide)
    }

    fn task_count(&self) -> u32 {
        total_of(self.wide)
    }

    fn task_named(&self, name: &Text) -> Option<u32> {
        let [letter] = name.as_bytes() else {
            return None;
        };
        if *letter < 65 {
            return None;
        }
        let task = (*letter - 65) as u32;
        if task < total_of(self.wide) {
            Some(task)
        } else {
            None
        }
    }

    fn footprint(&self, task: u32) -> &[u32] {
        if task < 2 {
            return &READS[task as usize];
        }
        if task == 2 {
            return &GATE;
        }
        &LAST
    }

    fn writes(&self, task: u32) -> &[u32] {
        &WRITES[task as usize]
    }

    fn run(
        &self,
        task: u32,
        now: u32,
        input: &[u8],
        _work: &mut (),
        regions: &mut Regions,
    ) -> CycleReply {
        if byte_at(regions, 2) == 255 {
            return CycleReply::Fault(Fault {
                kind: FaultKind::Null,
                line: 1,
            });
        }
        let sum = (byte_at(regions, task) as u64 + now as u64 + first_of(input) as u64) % 256;
        set_byte(regions, task, sum as u8);
        CycleReply::Done {
            ticks: sum as u32,
            outputs: Outputs::from_slice(&[sum as u8]),
        }
    }

    fn prepare(&self, alloc: Global, text: &Text) -> Result<Draft, Denied> {
        if text.is_empty() {
            let refusal = refuse(alloc)?;
            return Err(Denied::Refused(refusal));
        }
        let base = Counters {
            number: self.number,
            wide: self.wide,
        };
        let draft = make_draft(alloc, base, text)?;
        Ok(draft)
    }

    fn prepared_for(change: &Draft) -> u32 {
        change.base.number
    }

    fn apply(&self, change: Draft, regions: Regions) -> Result<Next<Counters>, Backed<Counters>> {
        if byte_at(&regions, 0) == 7 {
            let mut change = change;
            return match change.refusal.take() {
                Some(refusal) => Err(Backed {
                    change,
                    regions,
                    refusal,
                }),
                None => unreachable!(),
            };
        }
        let Draft {
            base: _,
            text: _,
            next,
            for_change,
            kits,
            room,
            extra,
            refusal: _,
        } = change;
        let regions = resize(regions, room, next.wide, extra);
        Ok(Next {
            loaded: next,
            for_change,
            regions,
            kits,
        })
    }

    ghost frames = { counters_frame };
}
