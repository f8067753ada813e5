//! Configurations.

ghost use Rattle.std.specs.Prelude.{◌≡◌, ◌++◌, flat_map, IfOk, OnOk};
ghost use Rattle.st_rules.specs.Faults.{least};
ghost use Rattle.st_unit_rules.specs.declared_names.Declarations.{Placed, configuration_globals, is_first_configuration, region_of_global};
ghost use Rattle.st_unit_rules.specs.declared_names.Variables.{sections_written};
ghost use Rattle.st_unit_rules.specs.Checked.{Each, TypedRegion};
ghost use Rattle.st_unit_rules.specs.DeclarationRules as rules;
ghost use Rattle.check_configurations.specs.program_instances.Programs.{HasPrograms};
ghost use Rattle.check_regions.specs.region_rules.Taken as taken_regions;
ghost use Rattle.check_configurations.specs.configuration_rules.Configurations.{StandsAt};

use crate::config_rules::tasks_and_instances;
use crate::configuration_rules::instances::{CheckedInstances, check_instances};
use crate::program_instances::UnitPrograms;
use check_names::name_rules::configuration_name_fault;
use check_names::name_spaces::HeldNames;
use check_regions::TakenRegions;
use plc_text::{Code, Items, NoMemory};
use st_rules::{earlier, when};
use st_tree::{Configuration, RegionDecl};
use std::alloc::Global;
use symbol_table::unit_tables::UnitTables;

/// What is found out about a configuration.
#[derive(Drop)]
pub struct CheckedConfiguration {
    /// The least rule that it breaks, with its least line.
    pub least: Option<(Code, u32)>,
    /// The regions of its instances in the checked program, if it is the first configuration.
    pub regions: Items<RegionDecl>,
}

/// Checks a configuration behind so many others, with what names and regions stand before its instances: the names are those before the
/// configuration, and the regions of its globals were taken. The least rule that it breaks, at its least line, and the regions of its
/// instances, which are taken then. Its globals are declarations of their own. It takes time linear in the configuration and the names of
/// the unit's programs.
pub fn check_configuration(
    alloc: Global,
    tables: &UnitTables<'_>,
    programs: &UnitPrograms<'_>,
    before: &HeldNames,
    taken: &mut TakenRegions,
    earlier_configurations: u32,
    configuration: &Configuration<u32>,
) -> Result<CheckedConfiguration, NoMemory>
    ensures fault { IfOk result (λ c. (x : Placed) → HasPrograms programs.now tables.now.decls → StandsAt x tables.now.decls configuration.now before.now taken.old earlier_configurations → c.least ≡ least (rules.configuration_faults tables.now.decls x configuration.now)) }
    ensures taken { OnOk result ((x : Placed) → HasPrograms programs.now tables.now.decls → StandsAt x tables.now.decls configuration.now before.now taken.old earlier_configurations →
        taken_regions.Holds taken.new tables.now.decls (x.regions ++ flat_map region_of_global (sections_written (configuration_globals configuration.now)) ++ rules.instance_regions tables.now.decls (is_first_configuration x.earlier) configuration.now)) }
    ensures regions { IfOk result (λ c. (x : Placed) → HasPrograms programs.now tables.now.decls → StandsAt x tables.now.decls configuration.now before.now taken.old earlier_configurations →
        Each (TypedRegion tables.now.decls) (rules.instance_regions tables.now.decls (is_first_configuration x.earlier) configuration.now) c.regions) }
{
    let name = configuration_name_fault(alloc, before, configuration)?;
    let second = when(0 < earlier_configurations, Code::E15, configuration.line);
    let inner = tasks_and_instances(alloc, programs.names(), configuration)?;
    let first = earlier_configurations == 0;
    let instances = configuration.instances.as_slice();
    let checked = check_instances(alloc, tables, programs, taken, first, instances)?;
    let CheckedInstances { least, regions } = checked;
    let named = earlier(name, second);
    let own = earlier(named, inner);
    let least = earlier(own, least);
    Ok(CheckedConfiguration { least, regions })
}
