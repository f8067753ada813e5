//! The variables of classes, function blocks and programs.

ghost use Rattle.std.specs.Prelude.{◌≡◌, ℕ, ◌∷◌, [], ◌++◌, map, IfOk, OnOk};
ghost use Rattle.st_unit_rules.specs.declared_names.Variables as variables;
ghost use Rattle.st_unit_rules.specs.declared_names.Variables.{sections_written};
ghost use Rattle.declared_symbols.specs.untold_names.Untold.{number_behind as behind, untold_members};
ghost use Rattle.type_resolution.specs.declared_variables.Private.Told as own;

use crate::declared_variables::names::{ToldName, told_members, told_names};
use declared_symbols::untold_names::{untold_members, untold_variable};
use name_resolution::Scope;
use plc_text::{NoMemory, Series};
use st_rules::{DeclaredVariable, copied};
use st_tree::{Member, Section, Target};
use st_unit_rules::declaration_list::written_names;
use std::alloc::Global;

/// The number behind, where this one is taken.
pub fn number_behind(taken: bool, number: u32) -> Result<u32, NoMemory>
    ensures { IfOk result (λ n. n ≡ behind taken number) }
{
    if !taken {
        return Ok(number);
    }
    match number.checked_add(1) {
        Some(next) => Ok(next),
        None => Err(NoMemory),
    }
}

fn constant_target(value: &Option<i128>) -> Target
    ensures { result ≡ variables.constant_target value.now }
{
    match value {
        Some(z) => Target::Constant(*z),
        None => Target::Nothing,
    }
}

/// A constant means its value, else the name what is given.
fn meant_by(told: &ToldName<'_>, other: Target) -> Target
    ensures { result ≡ own.meant_by (own.told_as told.now) other }
{
    if told.name.is_constant() {
        constant_target(&told.value)
    } else {
        other
    }
}

/// What a name declares, which means what is given where it is no constant.
pub fn declared(
    alloc: Global,
    told: &ToldName<'_>,
    other: Target,
) -> Result<DeclaredVariable, NoMemory>
    ensures { IfOk result (λ v. v ≡ own.variable_of (own.meant_by (own.told_as told.now) other) (own.told_as told.now)) }
{
    let mut variable = untold_variable(alloc, &told.name, meant_by(told, other))?;
    variable.kind = copied(alloc, &told.kind)?;
    Ok(variable)
}

fn declared_as(
    alloc: Global,
    list: &mut Series<DeclaredVariable>,
    told: &ToldName<'_>,
    untold: &DeclaredVariable,
) -> Result<(), NoMemory>
    ensures { OnOk result (list.new ≡ list.old ++ own.variable_of (own.meant_by (own.told_as told.now) untold.now.target) (own.told_as told.now) ∷ []) }
{
    let variable = declared(alloc, told, untold.target)?;
    list.push(variable)?;
    Ok(())
}

/// What names declare, each with the number that stands in its place.
fn declared_each(
    alloc: Global,
    names: &[ToldName<'_>],
    untold: &[DeclaredVariable],
) -> Result<Series<DeclaredVariable>, NoMemory>
    ensures { IfOk result (λ vs. vs ≡ own.told_like untold.now (map own.told_as names.now)) }
{
    let mut list = Series::new(alloc);
    for (i, told) in names.iter().enumerate() {
        let Some(variable) = untold.get(i) else {
            return Ok(list);
        };
        declared_as(alloc, &mut list, told, variable)?;
    }
    Ok(list)
}

/// The variables that the sections among the members of a class or a function block declare, in the scope of its body, with the numbers that
/// they have where nothing is told of them. It takes time linear in the text.
pub fn declared_members(
    alloc: Global,
    s: &Scope<'_>,
    untold: &[DeclaredVariable],
    members: &[Member<u32>],
) -> Result<Series<DeclaredVariable>, NoMemory>
    ensures { IfOk result (λ vs. (k l : ℕ) → untold.now ≡ untold_members k l (sections_written (variables.sections_in members.now)) → vs ≡ variables.members_declared s.now k l (variables.sections_in members.now)) }
{
    let names = told_members(alloc, s, members)?;
    let list = declared_each(alloc, &names, untold)?;
    Ok(list)
}

/// The variables that the sections of a program declare, of which nothing is told.
fn untold_of(alloc: Global, sections: &[Section<u32>]) -> Result<Series<DeclaredVariable>, NoMemory>
    ensures { IfOk result (λ vs. vs ≡ untold_members 0 0 (sections_written sections.now)) }
{
    let written = written_names(alloc, sections)?;
    let untold = untold_members(alloc, 0, 0, &written)?;
    Ok(untold)
}

/// The variables that the sections of a program declare.
pub fn declared_program(
    alloc: Global,
    s: &Scope<'_>,
    sections: &[Section<u32>],
) -> Result<Series<DeclaredVariable>, NoMemory>
    ensures { IfOk result (λ vs. vs ≡ variables.members_declared s.now 0 0 sections.now) }
{
    let untold = untold_of(alloc, sections)?;
    let names = told_names(alloc, s, sections)?;
    declared_each(alloc, &names, untold.as_slice())
}
