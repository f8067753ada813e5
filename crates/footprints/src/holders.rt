//! The regions that hold instances of each class.

ghost use Rattle.std.specs.Prelude.{◌≡◌, ℕ, length, IfOk, OnOk};
ghost use Rattle.st_values.specs.View.{program_of};
ghost use Rattle.region_instances.specs.Instances.{RegionsUnfold};
ghost use Rattle.footprints.specs.Private.Holders as words;

use plc_text::{Items, NoMemory};
use region_instances::RegionInstances;
use std::alloc::Global;

/// Adds a region, if it holds an instance of the class.
fn add(
    list: &mut Items<u32>,
    instances: &RegionInstances,
    region: u32,
    class: u32,
) -> Result<(), NoMemory>
    ensures { OnOk result (words.IsNextHolder (program_of instances.now) region class list.old list.new) }
{
    if instances.holds(region, class) {
        list.push(region)?;
        Ok(())
    } else {
        Ok(())
    }
}

/// The regions below a number that hold an instance of just this class.
fn holders_of(
    alloc: Global,
    instances: &RegionInstances,
    regions: u32,
    class: u32,
) -> Result<Items<u32>, NoMemory>
    ensures { IfOk result (λ list. RegionsUnfold (program_of instances.now) → words.AreHolders (program_of instances.now) class regions list) }
{
    let mut list = Items::new(alloc);
    for region in 0..regions {
        add(&mut list, instances, region, class)?;
    }
    Ok(list)
}

/// The regions below a number that hold instances, for each class below a number.
pub fn holders(
    alloc: Global,
    instances: &RegionInstances,
    regions: u32,
    classes: u32,
) -> Result<Vec<Items<u32>>, NoMemory>
    ensures length { IfOk result (λ lists. length lists.items ≡ classes) }
    ensures each { IfOk result (λ lists. RegionsUnfold (program_of instances.now) → words.AreAllHolders (program_of instances.now) regions lists.items) }
{
    let mut lists = Vec::new(alloc);
    for class in 0..classes {
        let list = holders_of(alloc, instances, regions, class)?;
        lists.push(list)?;
    }
    Ok(lists)
}
