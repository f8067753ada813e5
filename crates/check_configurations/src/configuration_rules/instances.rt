//! The program instances of a configuration, one after the other.

ghost use Rattle.std.specs.Prelude.{◌≡◌, [], true, IfOk, OnOk};
ghost use Rattle.check_configurations.specs.configuration_rules.Private.Instances.{Adds, Checks};

use crate::program_instances::{CheckedInstance, UnitPrograms, check_instance};
use check_regions::TakenRegions;
use plc_text::{Code, Items, NoMemory};
use st_rules::earlier;
use st_tree::{InstanceSpec, RegionDecl};
use std::alloc::Global;
use symbol_table::unit_tables::UnitTables;

/// What is found out about instances.
#[derive(Drop)]
pub struct CheckedInstances {
    /// The least rule that their regions break, with its least line.
    pub least: Option<(Code, u32)>,
    /// Their regions in the checked program.
    pub regions: Items<RegionDecl>,
}

/// Checks one instance more.
fn add_instance(
    alloc: Global,
    tables: &UnitTables<'_>,
    programs: &UnitPrograms<'_>,
    taken: &mut TakenRegions,
    found: &mut CheckedInstances,
    instance: &InstanceSpec,
) -> Result<(), NoMemory>
    ensures { OnOk result (Adds tables.now.decls programs.now taken.old taken.new found.old found.new instance.now) }
{
    let checked = check_instance(alloc, tables, programs, taken, instance)?;
    let CheckedInstance { least, region } = checked;
    let first = earlier(found.least, least);
    found.regions.push(region)?;
    found.least = first;
    Ok(())
}

fn no_instances(alloc: Global) -> CheckedInstances
    ensures least { result.least ≡ None }
    ensures regions { result.regions ≡ [] }
{
    CheckedInstances {
        least: None,
        regions: Items::new(alloc),
    }
}

fn check_each(
    alloc: Global,
    tables: &UnitTables<'_>,
    programs: &UnitPrograms<'_>,
    taken: &mut TakenRegions,
    instances: &[InstanceSpec],
) -> Result<CheckedInstances, NoMemory>
    ensures { IfOk result (λ found. Checks tables.now.decls programs.now taken.old taken.new true instances.now found) }
{
    let mut found = no_instances(alloc);
    for instance in instances {
        add_instance(alloc, tables, programs, taken, &mut found, instance)?;
    }
    Ok(found)
}

/// Checks the instances of the first configuration. Those of another one make no regions.
#[tactic(auto, using(crate::proofs::configuration_rules::InstanceLaws::if_first, crate::proofs::configuration_rules::InstanceLaws::instances_none))]
pub fn check_instances(
    alloc: Global,
    tables: &UnitTables<'_>,
    programs: &UnitPrograms<'_>,
    taken: &mut TakenRegions,
    first: bool,
    instances: &[InstanceSpec],
) -> Result<CheckedInstances, NoMemory>
    ensures { IfOk result (λ found. Checks tables.now.decls programs.now taken.old taken.new first instances.now found) }
{
    if first {
        let found = check_each(alloc, tables, programs, taken, instances)?;
        Ok(found)
    } else {
        Ok(no_instances(alloc))
    }
}
