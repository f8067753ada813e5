//! Globals of the unit, and configurations with their globals and instances.

ghost use Rattle.std.specs.Prelude.{◌≡◌, ◌++◌, map, IfErr, IfOk, OnOk};
ghost use Rattle.st_tree.specs.declared.unit.Decl.TheVariants as declaration;
ghost use Rattle.st_unit_rules.specs.declaration_list.Written.{global_of, names_in_sections};
ghost use Rattle.st_unit_rules.specs.declared_names.Declarations as declarations;
ghost use Rattle.st_unit_rules.specs.declared_names.Declarations.{configuration_globals};
ghost use Rattle.global_rules.specs.Sections.{Adds};
ghost use Rattle.check_names.specs.name_spaces.NamesIn.{names_of};
ghost use Rattle.st_check_decl.specs.unit_check.Private.Configurations.{ConfiguredFail, ConfiguredPass, Configures};
ghost use Rattle.st_check_decl.specs.unit_check.Private.Progress.{DeclFails, DeclPasses};
ghost use Rattle.st_check_decl.specs.unit_check.Private.Side.{ServesUnit};

use crate::checked_declarations::{Bad, CheckedSoFar, pass_configuration};
use crate::unit_check::globals::pass_globals;
use crate::unit_check::progress::Progress;
use crate::unit_check::side::CheckSide;
use check_configurations::{CheckedConfiguration, check_configuration};
use global_rules::{CheckedRegions, check_globals};
use plc_text::{Code, NoMemory};
use st_tree::{Configuration, InstanceSpec, Name, Section};
use st_unit_rules::declaration_list::{WrittenName, written_names};
use st_unit_rules::declared_names::resource_globals;
use std::alloc::Global;
use std::slice::from_ref;

/// Passes the globals of a section of the unit.
pub fn pass_section(
    alloc: Global,
    side: &CheckSide<'_, '_>,
    p: &mut Progress,
    section: &Section<u32>,
) -> Result<(), Bad>
    requires { ServesUnit side.now }
    ensures passed { OnOk result (DeclPasses p.old p.new side.now.tables.now.decls (declaration.Globals section.now)) }
    ensures bad { IfErr result (λ b. DeclFails b p.old side.now.tables.now.decls (declaration.Globals section.now)) }
{
    let sections = from_ref(section);
    let graph = side.tables.graph();
    let mut faults = Vec::new(alloc);
    check_globals(
        alloc,
        side.tables,
        side.scope,
        &mut p.regions,
        &mut faults,
        sections,
    )?;
    let names = written_names(alloc, sections)?;
    pass_globals(alloc, graph, &mut p.declarations, &faults, &names)?;
    Ok(())
}

fn add_names<'a>(list: &mut Vec<WrittenName<'a>>, names: &[WrittenName<'a>]) -> Result<(), NoMemory>
    ensures { OnOk result (map global_of list.new.items ≡ map global_of list.old.items ++ map global_of names.now) }
{
    for name in names {
        list.push(*name)?;
    }
    Ok(())
}

/// The names of the globals of a configuration, those of its resource behind its own.
fn configuration_names(
    alloc: Global,
    configuration: &Configuration<u32>,
) -> Result<Vec<WrittenName<'_>>, NoMemory>
    ensures { IfOk result (λ list. map global_of list.items ≡ names_in_sections (configuration_globals configuration.now)) }
{
    let mut list = written_names(alloc, configuration.globals.as_slice())?;
    let behind = written_names(alloc, resource_globals(&configuration.resource))?;
    add_names(&mut list, &behind)?;
    Ok(list)
}

/// The names of program instances.
fn instance_names(alloc: Global, instances: &[InstanceSpec]) -> Result<Vec<&Name>, NoMemory>
    ensures { IfOk result (λ list. names_of list.items ≡ map (λ x. x.name) instances.now) }
{
    let mut list = Vec::new(alloc);
    for instance in instances {
        list.push(&instance.name)?;
    }
    Ok(list)
}

/// Checks the globals of a configuration, those of its resource behind its own.
fn check_all_globals(
    alloc: Global,
    side: &CheckSide<'_, '_>,
    regions: &mut CheckedRegions,
    faults: &mut Vec<Option<(Code, u32)>>,
    configuration: &Configuration<u32>,
) -> Result<(), NoMemory>
    requires { ServesUnit side.now }
    ensures { OnOk result (Adds side.now.tables.now.decls faults.old.items regions.old faults.new.items regions.new (names_in_sections (configuration_globals configuration.now))) }
{
    let own = configuration.globals.as_slice();
    let behind = resource_globals(&configuration.resource);
    check_globals(alloc, side.tables, side.scope, regions, faults, own)?;
    check_globals(alloc, side.tables, side.scope, regions, faults, behind)?;
    Ok(())
}

/// Checks a configuration behind its globals: what it breaks itself; the regions of its instances come behind those of its globals.
fn check_configured(
    alloc: Global,
    side: &CheckSide<'_, '_>,
    checked: &CheckedSoFar,
    regions: &mut CheckedRegions,
    configuration: &Configuration<u32>,
) -> Result<Option<(Code, u32)>, NoMemory>
    requires { ServesUnit side.now }
    ensures { IfOk result (λ f. Configures f checked.now regions.old regions.new side.now.tables.now.decls configuration.now) }
{
    let found = check_configuration(
        alloc,
        side.tables,
        side.programs,
        &checked.before.names,
        &mut regions.taken,
        checked.before.configurations,
        configuration,
    )?;
    let CheckedConfiguration {
        least,
        regions: made,
    } = found;
    regions.regions.append(made)?;
    Ok(least)
}

/// Passes a configuration that breaks this, its globals, which break these, and its instances.
fn pass_configured(
    alloc: Global,
    side: &CheckSide<'_, '_>,
    x: &mut CheckedSoFar,
    fault: Option<(Code, u32)>,
    faults: &[Option<(Code, u32)>],
    configuration: &Configuration<u32>,
) -> Result<(), Bad>
    ensures passed { OnOk result (ConfiguredPass x.old x.new side.now.tables.now.decls fault faults.now configuration.now) }
    ensures bad { IfErr result (λ b. ConfiguredFail b x.old side.now.tables.now.decls fault faults.now configuration.now) }
{
    let graph = side.tables.graph();
    pass_configuration(alloc, graph, x, fault, configuration)?;
    let names = configuration_names(alloc, configuration)?;
    pass_globals(alloc, graph, x, faults, &names)?;
    let instances = instance_names(alloc, configuration.instances.as_slice())?;
    x.before.pass_names(alloc, &instances)?;
    Ok(())
}

/// Passes a configuration, its globals and its instances.
pub fn pass_whole_configuration(
    alloc: Global,
    side: &CheckSide<'_, '_>,
    p: &mut Progress,
    configuration: &Configuration<u32>,
) -> Result<(), Bad>
    requires { ServesUnit side.now }
    ensures passed { OnOk result (DeclPasses p.old p.new side.now.tables.now.decls (declaration.Configuration configuration.now)) }
    ensures bad { IfErr result (λ b. DeclFails b p.old side.now.tables.now.decls (declaration.Configuration configuration.now)) }
{
    let mut faults = Vec::new(alloc);
    check_all_globals(alloc, side, &mut p.regions, &mut faults, configuration)?;
    let fault = check_configured(alloc, side, &p.declarations, &mut p.regions, configuration)?;
    pass_configured(
        alloc,
        side,
        &mut p.declarations,
        fault,
        &faults,
        configuration,
    )?;
    Ok(())
}
