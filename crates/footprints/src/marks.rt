//! Sets of regions.

ghost use Rattle.std.specs.Prelude.{◌≡◌, IfOk, OnOk};
ghost use Rattle.std.specs.Ordering.{nat_cmp};
ghost use Rattle.std.specs.List.Sorted.{IsStrictlySortedBy};
ghost use Rattle.st_meaning.specs.st_frame.Footprint.{Has};
ghost use Rattle.footprints.specs.Private.Puts.{Puts, Via};
ghost use Rattle.footprints.specs.Private.Holders.{holders_at};

use plc_text::{Items, NoMemory};
use std::alloc::Global;
use std::collections::BTreeSet;

/// Regions, in rising order.
pub type Marks = BTreeSet<u32>;

/// Puts a region into the set.
pub fn put(marks: &mut Marks, region: u32) -> Result<(), NoMemory>
    ensures { OnOk result (Puts (λ r. r ≡ region) marks.old.keys marks.new.keys) }
{
    marks.insert(region)?;
    Ok(())
}

/// Puts the regions of a list into the set.
pub fn put_all(marks: &mut Marks, regions: &[u32]) -> Result<(), NoMemory>
    ensures { OnOk result (Puts (Via regions.now (λ x r. r ≡ x)) marks.old.keys marks.new.keys) }
{
    let mut left = regions;
    'regions: while let Some((region, behind)) = left.split_first() {
        put(marks, *region)?;
        left = behind;
    }
    Ok(())
}

fn put_holders(marks: &mut Marks, holders: &[Items<u32>], class: u32) -> Result<(), NoMemory>
    ensures { OnOk result (Puts (Has (holders_at holders.now class)) marks.old.keys marks.new.keys) }
{
    match holders.get(class as usize) {
        Some(regions) => {
            put_all(marks, regions.as_slice())?;
            Ok(())
        }
        None => Ok(()),
    }
}

/// Puts the regions that hold instances of these classes into the set.
pub fn put_classes(
    marks: &mut Marks,
    holders: &[Items<u32>],
    classes: &[u32],
) -> Result<(), NoMemory>
    ensures { OnOk result (Puts (Via classes.now (λ c r. Has (holders_at holders.now c) r)) marks.old.keys marks.new.keys) }
{
    let mut left = classes;
    'classes: while let Some((class, behind)) = left.split_first() {
        put_holders(marks, holders, *class)?;
        left = behind;
    }
    Ok(())
}

/// The regions of the set, in rising order.
pub fn listed(alloc: Global, marks: &Marks) -> Result<Vec<u32>, NoMemory>
    ensures items { IfOk result (λ list. list.items ≡ marks.now.keys) }
    ensures rising { IfOk result (λ list. IsStrictlySortedBy nat_cmp list.items) }
{
    let list = marks.iter().copied().collect(alloc)?;
    Ok(list)
}
