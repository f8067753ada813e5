//! Globals and functions of which nothing is told.

ghost use Rattle.std.specs.Prelude.{◌≡◌, ℕ, ◌+◌, ◌∷◌, [], ◌++◌, List, IfOk, OnOk};
ghost use Rattle.st_tree.specs.declared.unit.Decl.{Decl as ADecl};
ghost use Rattle.st_rules.specs.declared.names.DeclaredGlobal.TheVariants as global;
ghost use Rattle.st_unit_rules.specs.declared_names.Declarations as declarations;
ghost use Rattle.st_unit_rules.specs.declared_names.Variables.{item_written, section_written, sections_written};
ghost use Rattle.st_unit_rules.specs.declaration_list.Written.{written_of};
ghost use Rattle.declared_symbols.specs.untold_names.Untold as untold;
ghost use Rattle.declared_symbols.specs.untold_names.Private.Adds.{AddsGlobals};

use crate::untold_names::routines::untold_routine;
use crate::untold_names::variables::{number_behind, untold_variable};
use plc_text::{NoMemory, Series};
use st_rules::DeclaredGlobal;
use st_tree::{Configuration, Decl, FunctionDecl, Item, Section, Target};
use st_unit_rules::declaration_list::WrittenName;
use st_unit_rules::declared_names::{behind_instances, resource_globals};
use std::alloc::Global;

fn region_target(name: &WrittenName<'_>, region: u32) -> Target
    ensures { result ≡ untold.region_target region (written_of name.now) }
{
    if name.is_constant() {
        Target::Nothing
    } else {
        Target::Region(region)
    }
}

/// Adds a global; the number of the region behind it.
#[tactic(auto, using(crate::proofs::untold_names::GlobalLaws::name_added))]
fn add_name(
    alloc: Global,
    list: &mut Series<DeclaredGlobal>,
    region: u32,
    name: &WrittenName<'_>,
) -> Result<u32, NoMemory>
    ensures { IfOk result (λ after. AddsGlobals list.old list.new region after (written_of name.now ∷ [])) }
{
    let target = region_target(name, region);
    let declared = untold_variable(alloc, name, target)?;
    list.push(DeclaredGlobal::Variable(declared))?;
    let after = number_behind(!name.is_constant(), region)?;
    Ok(after)
}

fn add_item(
    alloc: Global,
    list: &mut Series<DeclaredGlobal>,
    first: u32,
    section: &Section<u32>,
    item: &Item<u32>,
) -> Result<u32, NoMemory>
    ensures { IfOk result (λ after. AddsGlobals list.old list.new first after (item_written section.now item.now)) }
{
    let names = item.names.as_slice();
    let mut region = first;
    for name in names {
        let written = WrittenName {
            section,
            item,
            name,
            first: false,
        };
        region = add_name(alloc, list, region, &written)?;
    }
    Ok(region)
}

fn add_section(
    alloc: Global,
    list: &mut Series<DeclaredGlobal>,
    first: u32,
    section: &Section<u32>,
) -> Result<u32, NoMemory>
    ensures { IfOk result (λ after. AddsGlobals list.old list.new first after (section_written section.now)) }
{
    let items = section.items.as_slice();
    let mut region = first;
    for item in items {
        region = add_item(alloc, list, region, section, item)?;
    }
    Ok(region)
}

fn add_sections(
    alloc: Global,
    list: &mut Series<DeclaredGlobal>,
    first: u32,
    sections: &[Section<u32>],
) -> Result<u32, NoMemory>
    ensures { IfOk result (λ after. AddsGlobals list.old list.new first after (sections_written sections.now)) }
{
    let mut region = first;
    for section in sections {
        region = add_section(alloc, list, region, section)?;
    }
    Ok(region)
}

/// Adds the globals of a configuration, those of its resource behind its own.
#[tactic(auto, using(crate::proofs::untold_names::GlobalLaws::configuration_added))]
fn add_configuration(
    alloc: Global,
    list: &mut Series<DeclaredGlobal>,
    first: u32,
    configuration: &Configuration<u32>,
) -> Result<u32, NoMemory>
    ensures { IfOk result (λ after. AddsGlobals list.old list.new first after (sections_written (declarations.configuration_globals configuration.now))) }
{
    let own = add_sections(alloc, list, first, configuration.globals.as_slice())?;
    let all = add_sections(alloc, list, own, resource_globals(&configuration.resource))?;
    Ok(all)
}

fn add_function(
    alloc: Global,
    list: &mut Series<DeclaredGlobal>,
    number: u32,
    function: &FunctionDecl<u32>,
) -> Result<(), NoMemory>
    ensures { OnOk result (list.new ≡ list.old ++ global.Function number (untold.untold_routine function.now.name.text [] function.now.result function.now.sections) ∷ []) }
{
    let routine = untold_routine(
        alloc,
        &function.name,
        &[],
        &function.result,
        function.sections.as_slice(),
    )?;
    list.push(DeclaredGlobal::Function(number, routine))?;
    Ok(())
}

/// The numbers of the next region and of the next function.
#[derive(Clone, Copy)]
struct Next {
    region: u32,
    function: u32,
}

/// Adds the globals and functions of a declaration; the numbers behind them.
#[tactic(auto, using(crate::proofs::untold_names::GlobalLaws::section_declared, crate::proofs::untold_names::GlobalLaws::function_declared, crate::proofs::untold_names::GlobalLaws::configuration_declared))]
fn add_declaration(
    alloc: Global,
    list: &mut Series<DeclaredGlobal>,
    next: Next,
    decl: &Decl<u32>,
) -> Result<Next, NoMemory>
    ensures { IfOk result (λ after. (ds : List (ADecl ℕ)) → list.new ++ untold.untold_globals after.region after.function ds ≡ list.old ++ untold.untold_globals next.region next.function (decl.now ∷ ds)) }
{
    match decl {
        Decl::Globals(section) => {
            let region = add_section(alloc, list, next.region, section)?;
            Ok(Next {
                region,
                function: next.function,
            })
        }
        Decl::Function(function) => {
            add_function(alloc, list, next.function, function)?;
            let behind = number_behind(true, next.function)?;
            Ok(Next {
                region: next.region,
                function: behind,
            })
        }
        Decl::Configuration(configuration) => {
            let own = add_configuration(alloc, list, next.region, configuration)?;
            let region = behind_instances(own, configuration.instances.len())?;
            Ok(Next {
                region,
                function: next.function,
            })
        }
        Decl::Types(_, _) => Ok(next),
        Decl::Interface(_) => Ok(next),
        Decl::Class(_) => Ok(next),
        Decl::Program(_) => Ok(next),
    }
}

/// The globals and functions of a unit, in the order of the text.
pub fn untold_globals(
    alloc: Global,
    decls: &[Decl<u32>],
) -> Result<Series<DeclaredGlobal>, NoMemory>
    ensures { IfOk result (λ list. list ≡ untold.untold_globals 0 0 decls.now) }
{
    let mut list = Series::new(alloc);
    let mut next = Next {
        region: 0,
        function: 0,
    };
    for decl in decls {
        next = add_declaration(alloc, &mut list, next, decl)?;
    }
    Ok(list)
}
