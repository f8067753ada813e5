//! Globals.

ghost use Rattle.std.specs.Prelude.{◌≡◌, ◌∷◌, ◌++◌, List, map, not, IfOk};
ghost use Rattle.st_unit_rules.specs.declared_names.Variables.{section_written, sections_written};
ghost use Rattle.type_resolution.specs.declared_variables.Globals.{AddsGlobals};
ghost use Rattle.type_resolution.specs.declared_variables.Private.Told as own;
ghost use Rattle.type_resolution.specs.declared_variables.Private.Told.{ToldName as AToldName};

use crate::declared_variables::members::{declared, number_behind};
use crate::declared_variables::names::{ToldName, told_names, told_section};
use name_resolution::Scope;
use plc_text::{NoMemory, Series};
use st_rules::DeclaredGlobal;
use st_tree::{Section, Target};
use std::alloc::Global;

/// Adds a global, which has this region where it is no constant; the number of the region behind it.
#[tactic(auto, using(crate::proofs::declared_variables::NumberLaws::global_added))]
fn add_global(
    alloc: Global,
    list: &mut Series<DeclaredGlobal>,
    region: u32,
    told: &ToldName<'_>,
) -> Result<u32, NoMemory>
    ensures { IfOk result (λ after. (ts : List AToldName) → (list.new ++ own.globals_told after ts ≡ list.old ++ own.globals_told region (own.told_as told.now ∷ ts)) × (own.regions_behind after ts ≡ own.regions_behind region (own.told_as told.now ∷ ts))) }
{
    let variable = declared(alloc, told, Target::Region(region))?;
    list.push(DeclaredGlobal::Variable(variable))?;
    let after = number_behind(!told.name.is_constant(), region)?;
    Ok(after)
}

fn add_numbered(
    alloc: Global,
    list: &mut Series<DeclaredGlobal>,
    first: u32,
    names: &[ToldName<'_>],
) -> Result<u32, NoMemory>
    ensures { IfOk result (λ after. (list.new ≡ list.old ++ own.globals_told first (map own.told_as names.now)) × (after ≡ own.regions_behind first (map own.told_as names.now))) }
{
    let mut region = first;
    for name in names {
        region = add_global(alloc, list, region, name)?;
    }
    Ok(region)
}

/// Adds the globals that a section declares, the first of them that is no constant with this region; the number of the region behind them.
#[tactic(auto, using(crate::proofs::declared_variables::NumberLaws::globals_are))]
pub fn add_section_globals(
    alloc: Global,
    s: &Scope<'_>,
    list: &mut Series<DeclaredGlobal>,
    region: u32,
    section: &Section<u32>,
) -> Result<u32, NoMemory>
    ensures { IfOk result (λ after. AddsGlobals s.now list.old list.new region after (section_written section.now)) }
{
    let names = told_section(alloc, s, section)?;
    let after = add_numbered(alloc, list, region, &names)?;
    Ok(after)
}

/// The same of sections.
#[tactic(auto, using(crate::proofs::declared_variables::NumberLaws::globals_are))]
pub fn add_globals(
    alloc: Global,
    s: &Scope<'_>,
    list: &mut Series<DeclaredGlobal>,
    region: u32,
    sections: &[Section<u32>],
) -> Result<u32, NoMemory>
    ensures { IfOk result (λ after. AddsGlobals s.now list.old list.new region after (sections_written sections.now)) }
{
    let names = told_names(alloc, s, sections)?;
    let after = add_numbered(alloc, list, region, &names)?;
    Ok(after)
}
