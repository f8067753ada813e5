//! A table of ways by region.

ghost use Rattle.std.specs.Prelude.{◌≡◌, ℕ, true, slice_get};
ghost use Rattle.st_types.specs.Range.{Fits};
ghost use Rattle.st_types.specs.declared.elem.Elem.TheVariants.{Ulint};
ghost use Rattle.image_moves.specs.Table.{may_go, word_at, word_from, address_moved, is_low, is_low_at};

use crate::finding::find;
use crate::mover::Relocates;
use crate::ways::Way;
use plc_text::Items;

/// What becomes of the instances of an old region: the new region, and the way.
#[derive(Drop)]
pub struct Target {
    pub region: u32,
    pub way: Way,
}

/// The ways of all old regions, and which class conforms to what.
#[derive(Drop)]
pub struct Addresses {
    pub regions: Items<Option<Target>>,
    pub classes: u32,
    pub bits: Items<bool>,
    ghost low: { (r offset : ℕ) → is_low_at (slice_get regions r) offset ≡ true },
}

/// Whether a class conforms to what an address is meant for.
fn conforms(bits: &Items<bool>, classes: u32, aim: u32, class: u32) -> bool
    ensures { result ≡ may_go bits.now classes aim class }
{
    if class >= classes {
        return false;
    }
    let place = u64::from(aim) * u64::from(classes) + u64::from(class);
    match bits.get(place as usize) {
        Some(bit) => *bit,
        None => false,
    }
}

/// The word of what was found.
#[tactic(auto, using(crate::proofs::TableFacts::low_offset))]
fn word(bits: &Items<bool>, classes: u32, aim: u32, region: u32, found: Option<(u32, u32)>) -> u64
    requires { is_low found ≡ true }
    ensures { result ≡ word_at (may_go bits.now classes aim) region found }
{
    match found {
        None => 0,
        Some((offset, class)) => {
            if conforms(bits, classes, aim, class) {
                u64::from(region) * 4294967296 + u64::from(offset) + 1
            } else {
                0
            }
        }
    }
}

impl Addresses {
    /// The word of an old region's offset.
    fn moved(&self, aim: u32, region: u64, offset: u32) -> u64
        ensures { result ≡ word_from (may_go self.now.bits self.now.classes aim) (slice_get self.now.regions region) offset }
    {
        match self.regions.get(region as usize) {
            Some(Some(target)) => word(
                &self.bits,
                self.classes,
                aim,
                target.region,
                find(&target.way, offset),
            ),
            _ => 0,
        }
    }
}

impl Relocates for Addresses {
    ghost use Rattle.std.specs.Prelude.{pos};

    ghost by = { λ t aim z. address_moved t.regions t.classes t.bits aim z };

    fn relocate(&self, aim: u32, word: i128) -> i128
        ensures value { result ≡ address_moved self.now.regions self.now.classes self.now.bits aim word }
        ensures fits { Fits Ulint result }
    {
        let size = word.unsigned_abs();
        if size == 0 {
            return 0;
        }
        let inside = size - 1;
        if inside >= 18446744073709551616 {
            return 0;
        }
        let inside = inside as u64;
        i128::from(self.moved(aim, inside / 4294967296, (inside % 4294967296) as u32))
    }
}
