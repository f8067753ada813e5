//! Variables of which nothing is told.

ghost use Rattle.std.specs.Prelude.{◌≡◌, ℕ, suc, [], ◌∷◌, ◌++◌, List, map, IfOk, OnOk};
ghost use Rattle.st_unit_rules.specs.declared_names.Variables as variables;
ghost use Rattle.st_unit_rules.specs.declared_names.Variables.{Written};
ghost use Rattle.st_unit_rules.specs.declaration_list.Written.{written_of};
ghost use Rattle.declared_symbols.specs.untold_names.Untold as untold;

use plc_text::{NoMemory, Series, Text};
use st_rules::{Access, DeclaredVariable, written_access};
use st_tree::{Area, SectionSort, Target, area_of};
use st_unit_rules::declaration_list::{WrittenName, is_of_body, is_parameter};
use std::alloc::Global;

fn is_input_area(area: Area) -> bool
    ensures { result ≡ variables.is_input_area area }
{
    matches!(area, Area::Input)
}

fn is_at_input(address: &Option<Text>) -> bool
    ensures { result ≡ variables.is_at_input address.now }
{
    match address {
        Some(text) => is_input_area(area_of(text.as_str())),
        None => false,
    }
}

fn section_access(sort: SectionSort, written: Option<Access>) -> Access
    ensures { result ≡ variables.section_access sort written }
{
    match sort {
        SectionSort::Var => written.unwrap_or(Access::Protected),
        _ => Access::Public,
    }
}

/// The number behind, where this one is taken.
pub fn number_behind(taken: bool, number: u32) -> Result<u32, NoMemory>
    ensures { IfOk result (λ n. n ≡ untold.number_behind taken number) }
{
    if !taken {
        return Ok(number);
    }
    match number.checked_add(1) {
        Some(next) => Ok(next),
        None => Err(NoMemory),
    }
}

/// A variable or a constant, of which nothing is told but what it means.
pub fn untold_variable(
    alloc: Global,
    name: &WrittenName<'_>,
    target: Target,
) -> Result<DeclaredVariable, NoMemory>
    ensures { IfOk result (λ v. v ≡ untold.untold_variable target (written_of name.now)) }
{
    let text = Text::copy(alloc, name.name.text.as_str())?;
    let sort = name.section.sort;
    Ok(DeclaredVariable {
        name: text,
        sort,
        constant: name.is_constant(),
        access: section_access(sort, written_access(name.section.modifiers.as_slice())),
        located_input: is_at_input(&name.item.address),
        kind: None,
        target,
    })
}

/// What a name of a class or a program means, where the next variable of the instance and the next local of the body have these numbers.
fn member_target(name: &WrittenName<'_>, variable: u32, local: u32) -> Target
    ensures { result ≡ untold.member_target variable local (written_of name.now) }
{
    if name.is_kept() {
        Target::Variable(variable)
    } else if is_of_body(name) {
        Target::Local(local)
    } else {
        Target::Nothing
    }
}

/// The numbers of the next variable of an instance and of the next local of a body.
#[derive(Clone, Copy)]
struct Numbers {
    variable: u32,
    local: u32,
}

/// Adds what a name of a class or a program declares; the numbers behind it.
#[tactic(auto, using(crate::proofs::untold_names::StepLaws::member_added))]
fn add_member(
    alloc: Global,
    list: &mut Series<DeclaredVariable>,
    next: Numbers,
    name: &WrittenName<'_>,
) -> Result<Numbers, NoMemory>
    ensures { IfOk result (λ after. (ws : List Written) → list.new ++ untold.untold_members after.variable after.local ws ≡ list.old ++ untold.untold_members next.variable next.local (written_of name.now ∷ ws)) }
{
    let target = member_target(name, next.variable, next.local);
    let declared = untold_variable(alloc, name, target)?;
    list.push(declared)?;
    let variable = number_behind(name.is_kept(), next.variable)?;
    let local = number_behind(is_of_body(name), next.local)?;
    Ok(Numbers { variable, local })
}

/// The variables of a class, a function block or a program, numbered from these numbers on.
pub fn untold_members(
    alloc: Global,
    first_variable: u32,
    first_local: u32,
    names: &[WrittenName<'_>],
) -> Result<Series<DeclaredVariable>, NoMemory>
    ensures { IfOk result (λ vs. vs ≡ untold.untold_members first_variable first_local (map written_of names.now)) }
{
    let mut list = Series::new(alloc);
    let mut next = Numbers {
        variable: first_variable,
        local: first_local,
    };
    for name in names {
        next = add_member(alloc, &mut list, next, name)?;
    }
    Ok(list)
}

/// Adds what a name of a routine declares, where it is a parameter; the number behind it.
#[tactic(auto, using(crate::proofs::untold_names::StepLaws::parameter_added, crate::proofs::untold_names::StepLaws::no_parameter))]
fn add_parameter(
    alloc: Global,
    list: &mut Series<DeclaredVariable>,
    next: u32,
    name: &WrittenName<'_>,
) -> Result<u32, NoMemory>
    ensures { IfOk result (λ after. (ws : List Written) → list.new ++ untold.untold_parameters after ws ≡ list.old ++ untold.untold_parameters next (written_of name.now ∷ ws)) }
{
    if !is_parameter(name) {
        return Ok(next);
    }
    let declared = untold_variable(alloc, name, Target::Local(next))?;
    list.push(declared)?;
    let after = number_behind(true, next)?;
    Ok(after)
}

/// The inputs, outputs and in-outs among the names of a routine, numbered from this number on.
pub fn untold_parameters(
    alloc: Global,
    first: u32,
    names: &[WrittenName<'_>],
) -> Result<Series<DeclaredVariable>, NoMemory>
    ensures { IfOk result (λ vs. vs ≡ untold.untold_parameters first (map written_of names.now)) }
{
    let mut list = Series::new(alloc);
    let mut next = first;
    for name in names {
        next = add_parameter(alloc, &mut list, next, name)?;
    }
    Ok(list)
}
