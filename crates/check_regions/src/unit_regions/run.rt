//! The regions that a task runs.

ghost use Rattle.std.specs.Prelude.{◌≡◌, ◌∷◌, [], ◌++◌, if◌then◌else◌, List, ℕ, map, IfOk, OnOk};
ghost use Rattle.st_tree.specs.declared.unit.Decl.{Decl};
ghost use Rattle.st_unit_rules.specs.Checked.{region_of_task};
ghost use Rattle.check_regions.specs.unit_regions.Listed.{region_as};
ghost use Rattle.check_regions.specs.unit_regions.Private.Run.{is_run};

use crate::unit_regions::listed::UnitRegion;
use plc_text::{Items, NoMemory, Text, one_more};
use std::alloc::Global;

/// Whether the region is an instance that runs with the task.
fn is_run(region: &UnitRegion<'_>, task: &Text) -> bool
    ensures { result ≡ is_run task.now (region_as region.now) }
{
    match region {
        UnitRegion::Global(_) => false,
        UnitRegion::Instance(instance) => instance.task.text.as_str() == task.as_str(),
    }
}

/// Adds the number of a region that is run.
fn add_run(numbers: &mut Items<u32>, run: bool, number: u32) -> Result<(), NoMemory>
    ensures { OnOk result (numbers.new ≡ (if run then numbers.old ++ number ∷ [] else numbers.old)) }
{
    if run {
        numbers.push(number)?;
    }
    Ok(())
}

/// The numbers of the program instances that run with the task of this name, rising.
pub fn regions_of_task(
    alloc: Global,
    regions: &[UnitRegion<'_>],
    task: &Text,
) -> Result<Items<u32>, NoMemory>
    ensures { IfOk result (λ numbers. (decls : List (Decl ℕ)) → numbers ≡ region_of_task decls task.now 0 (map region_as regions.now)) }
{
    let mut numbers = Items::new(alloc);
    let mut number = 0u32;
    for region in regions {
        let run = is_run(region, task);
        add_run(&mut numbers, run, number)?;
        number = one_more(number)?;
    }
    Ok(numbers)
}
