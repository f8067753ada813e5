//! Globals and functions, with their types, values and numbers.

ghost use Rattle.std.specs.Prelude.{◌≡◌, ℕ, ◌+◌, ◌∷◌, [], ◌++◌, List, None, false, length, IfOk, OnOk};
ghost use Rattle.st_tree.specs.declared.unit.Decl.{Decl as ADecl};
ghost use Rattle.st_rules.specs.declared.names.DeclaredGlobal.TheVariants as global;
ghost use Rattle.st_unit_rules.specs.declared_names.Declarations as declarations;
ghost use Rattle.st_unit_rules.specs.declared_names.Variables.{section_written, sections_written};
ghost use Rattle.st_unit_rules.specs.declared_names.UnitNames as unit_names;
ghost use Rattle.type_resolution.specs.declared_variables.Globals.{AddsGlobals};
ghost use Rattle.symbol_table.specs.unit_names.Private.Known.{IsKnown, decls_of, names_of, scope_in};

use crate::unit_names::known::{Known, around, scope_of};
use crate::unit_names::routines::declared_routine;
use plc_text::{NoMemory, Series, one_more};
use st_rules::DeclaredGlobal;
use st_tree::{Configuration, Decl, FunctionDecl, Section};
use st_unit_rules::declared_names::{behind_instances, resource_globals};
use std::alloc::Global;
use type_resolution::declared_variables::{add_globals, add_section_globals};

/// Adds the globals of a section; the number of the region behind them.
fn add_section(
    alloc: Global,
    known: &Known<'_>,
    list: &mut Series<DeclaredGlobal>,
    region: u32,
    section: &Section<u32>,
) -> Result<u32, NoMemory>
    requires { IsKnown known.now }
    ensures { IfOk result (λ after. AddsGlobals (scope_in known.now None false) list.old list.new region after (section_written section.now)) }
{
    let s = scope_of(alloc, known, None)?;
    let after = add_section_globals(alloc, &s, list, region, section)?;
    Ok(after)
}

fn add_sections(
    alloc: Global,
    known: &Known<'_>,
    list: &mut Series<DeclaredGlobal>,
    region: u32,
    sections: &[Section<u32>],
) -> Result<u32, NoMemory>
    requires { IsKnown known.now }
    ensures { IfOk result (λ after. AddsGlobals (scope_in known.now None false) list.old list.new region after (sections_written sections.now)) }
{
    let s = scope_of(alloc, known, None)?;
    let after = add_globals(alloc, &s, list, region, sections)?;
    Ok(after)
}

/// Adds the globals of a configuration, those of its resource behind its own; the number of the region behind them.
#[tactic(auto, using(crate::proofs::unit_names::GlobalLaws::configuration_added))]
fn add_configuration(
    alloc: Global,
    known: &Known<'_>,
    list: &mut Series<DeclaredGlobal>,
    region: u32,
    configuration: &Configuration<u32>,
) -> Result<u32, NoMemory>
    requires { IsKnown known.now }
    ensures { IfOk result (λ after. AddsGlobals (scope_in known.now None false) list.old list.new region after (sections_written (declarations.configuration_globals configuration.now))) }
{
    let own = add_sections(alloc, known, list, region, configuration.globals.as_slice())?;
    let all = add_sections(
        alloc,
        known,
        list,
        own,
        resource_globals(&configuration.resource),
    )?;
    Ok(all)
}

fn add_function(
    alloc: Global,
    known: &Known<'_>,
    list: &mut Series<DeclaredGlobal>,
    number: u32,
    function: &FunctionDecl<u32>,
) -> Result<(), NoMemory>
    requires { IsKnown known.now }
    ensures { OnOk result (list.new ≡ list.old ++ global.Function number (unit_names.routine_declared (scope_in known.now None false) function.now.name.text [] function.now.result function.now.sections) ∷ []) }
{
    let around = around(known, None, false);
    let routine = declared_routine(
        alloc,
        &around,
        &function.name,
        &[],
        &function.result,
        function.sections.as_slice(),
    )?;
    list.push(DeclaredGlobal::Function(number, routine))?;
    Ok(())
}

/// The numbers of the next region and of the next function.
#[derive(Clone, Copy)]
struct Next {
    region: u32,
    function: u32,
}

/// Adds the globals and functions of a declaration; the numbers behind them.
#[tactic(auto, using(crate::proofs::unit_names::GlobalLaws::section_declared, crate::proofs::unit_names::GlobalLaws::function_declared, crate::proofs::unit_names::GlobalLaws::configuration_declared))]
fn add_declaration(
    alloc: Global,
    known: &Known<'_>,
    list: &mut Series<DeclaredGlobal>,
    next: Next,
    decl: &Decl<u32>,
) -> Result<Next, NoMemory>
    requires { IsKnown known.now }
    ensures { IfOk result (λ after. (ds : List (ADecl ℕ)) → list.new ++ unit_names.globals_from (decls_of known.now) (names_of known.now) after.region after.function ds
        ≡ list.old ++ unit_names.globals_from (decls_of known.now) (names_of known.now) next.region next.function (decl.now ∷ ds)) }
{
    match decl {
        Decl::Globals(section) => {
            let region = add_section(alloc, known, list, next.region, section)?;
            Ok(Next {
                region,
                function: next.function,
            })
        }
        Decl::Function(function) => {
            add_function(alloc, known, list, next.function, function)?;
            let behind = one_more(next.function)?;
            Ok(Next {
                region: next.region,
                function: behind,
            })
        }
        Decl::Configuration(configuration) => {
            let own = add_configuration(alloc, known, list, next.region, configuration)?;
            let region = behind_instances(own, configuration.instances.len())?;
            Ok(Next {
                region,
                function: next.function,
            })
        }
        Decl::Types(_, _) => Ok(next),
        Decl::Interface(_) => Ok(next),
        Decl::Class(_) => Ok(next),
        Decl::Program(_) => Ok(next),
    }
}

/// The globals and functions of a unit, in the order of the text.
pub fn declared_globals(
    alloc: Global,
    known: &Known<'_>,
    decls: &[Decl<u32>],
) -> Result<Series<DeclaredGlobal>, NoMemory>
    requires { IsKnown known.now }
    ensures { IfOk result (λ list. list ≡ unit_names.globals_from (decls_of known.now) (names_of known.now) 0 0 decls.now) }
{
    let mut list = Series::new(alloc);
    let mut next = Next {
        region: 0,
        function: 0,
    };
    for decl in decls {
        next = add_declaration(alloc, known, &mut list, next, decl)?;
    }
    Ok(list)
}
