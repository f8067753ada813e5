//! All that can be told of the locals of a routine or a program.

ghost use Rattle.std.specs.Prelude.{◌≡◌, true, map, IfOk};
ghost use Rattle.st_unit_rules.specs.declared_names.UnitNames as unit_names;
ghost use Rattle.st_unit_rules.specs.declared_names.UnitNames.{forgotten};
ghost use Rattle.st_unit_rules.specs.declaration_list.Written.{global_of, names_in_sections};
ghost use Rattle.resolution_order.specs.told_laws.LocalLaws.{SoundLocals};
ghost use Rattle.resolution_order.specs.told_laws.TellingLaws.{NoValueLeft};
ghost use Rattle.resolution_order.specs.told_laws.ToldLaws.{Each};
ghost use Rattle.type_resolution.specs.told_locals.Around.{IsAround, all_told, scope_around, sections_of};
ghost use Rattle.type_resolution.specs.told_locals.Private.Telling.{IsTold, is_left};

use crate::told_locals::around::{Around, Declaring, declared_with};
use crate::told_locals::telling::{Told, tell_each};
use name_resolution::local_places;
use plc_text::{NoMemory, Series, Text};
use resolution_order::telling_groups::{Group, order_of_need};
use st_rules::DeclaredVariable;
use st_tree::{Section, Target};
use st_unit_rules::declaration_list::{WrittenName, written_names};
use st_unit_rules::declared_names::is_told;
use std::alloc::Global;

fn forgotten_target(constant: bool, target: Target) -> Target
    ensures { result ≡ unit_names.forgotten_target constant target }
{
    if constant { Target::Nothing } else { target }
}

fn forgotten_one(alloc: Global, variable: &DeclaredVariable) -> Result<DeclaredVariable, NoMemory>
    ensures { IfOk result (λ v. v ≡ forgotten variable.now) }
{
    let name = Text::copy(alloc, variable.name.as_str())?;
    Ok(DeclaredVariable {
        name,
        sort: variable.sort,
        constant: variable.constant,
        access: variable.access,
        located_input: variable.located_input,
        kind: None,
        target: forgotten_target(variable.constant, variable.target),
    })
}

/// The same variables, of which the names are known alone.
fn forgotten_each(
    alloc: Global,
    variables: &[DeclaredVariable],
) -> Result<Series<DeclaredVariable>, NoMemory>
    ensures { IfOk result (λ vs. vs ≡ map forgotten variables.now) }
{
    let mut list = Series::new(alloc);
    for variable in variables {
        let one = forgotten_one(alloc, variable)?;
        list.push(one)?;
    }
    Ok(list)
}

fn sections_of<'a>(of: &Declaring<'a>) -> &'a [Section<u32>]
    ensures { result.now ≡ sections_of of.now }
{
    match of {
        Declaring::Routine(_, _, sections) => *sections,
        Declaring::Program(sections) => *sections,
    }
}

/// The locals of which nothing is told.
fn untold(alloc: Global, around: &Around<'_>, of: &Declaring<'_>) -> Result<Told, NoMemory>
    requires { IsAround around.now }
    ensures { IfOk result (λ t. IsTold around.now of.now t) }
{
    let named = declared_with(alloc, around, of, &[])?;
    let known = forgotten_each(alloc, named.as_slice())?;
    let places = local_places(alloc, known.as_slice())?;
    Ok(Told { known, places })
}

/// The items that declare constants.
fn constant_groups<'a>(
    alloc: Global,
    names: &[WrittenName<'a>],
) -> Result<Vec<Group<'a>>, NoMemory> {
    let mut groups = Vec::new(alloc);
    for name in names {
        if name.first && name.is_constant() {
            groups.push(Group::Globals(0, *name))?;
        }
    }
    Ok(groups)
}

/// Where these items begin.
fn constant_places(alloc: Global, names: &[WrittenName<'_>]) -> Result<Vec<usize>, NoMemory> {
    let mut places = Vec::new(alloc);
    for (place, name) in names.iter().enumerate() {
        if name.first && name.is_constant() {
            places.push(place)?;
        }
    }
    Ok(places)
}

/// Their numbers, each behind those that it needs, where that can be.
fn needed_order(alloc: Global, names: &[WrittenName<'_>]) -> Result<Vec<usize>, NoMemory> {
    let groups = constant_groups(alloc, names)?;
    order_of_need(alloc, &groups)
}

/// The places of these numbers.
fn picked(alloc: Global, places: &[usize], numbers: &[usize]) -> Result<Vec<usize>, NoMemory> {
    let mut order = Vec::new(alloc);
    for number in numbers {
        match places.get(*number) {
            Some(place) => order.push(*place)?,
            None => {}
        }
    }
    Ok(order)
}

/// The places of the items that declare constants, each behind those that it needs, where that can be. Nothing is said of the order, since
/// no answer depends on it.
fn order_of(alloc: Global, names: &[WrittenName<'_>]) -> Result<Vec<usize>, NoMemory> {
    let numbers = needed_order(alloc, names)?;
    let places = constant_places(alloc, names)?;
    picked(alloc, &places, &numbers)
}

/// The locals with what can be told of constants in an order of need.
fn told_in_order(
    alloc: Global,
    around: &Around<'_>,
    of: &Declaring<'_>,
    names: &[WrittenName<'_>],
) -> Result<Series<DeclaredVariable>, NoMemory>
    requires around { IsAround around.now }
    requires names { map global_of names.now ≡ names_in_sections (sections_of of.now) }
    ensures { IfOk result (λ vs. SoundLocals vs (all_told of.now (scope_around around.now))) }
{
    let order = order_of(alloc, names)?;
    let first = untold(alloc, around, of)?;
    let told = tell_each(alloc, around, of, names, first, &order)?;
    Ok(told.known)
}

/// Whether the value of a constant is told in the second alone.
fn is_left(known: &DeclaredVariable, next: &DeclaredVariable) -> bool
    ensures { result ≡ is_left known.now next.now }
{
    next.constant && is_told(next.target) && !is_told(known.target)
}

/// Whether the second tells no value that the first does not tell.
fn nothing_left(known: &[DeclaredVariable], next: &[DeclaredVariable]) -> bool
    ensures { result ≡ true → Each NoValueLeft known.now next.now }
{
    if known.len() != next.len() {
        return false;
    }
    for (i, variable) in known.iter().enumerate() {
        if is_left(variable, &next[i]) {
            return false;
        }
    }
    true
}

/// What is told in so many rounds, where the last of them tells no value more than the one before.
fn settle(
    alloc: Global,
    around: &Around<'_>,
    of: &Declaring<'_>,
    first: Series<DeclaredVariable>,
    most: usize,
) -> Result<Series<DeclaredVariable>, NoMemory>
    requires around { IsAround around.now }
    requires sound { SoundLocals first (all_told of.now (scope_around around.now)) }
    ensures { IfOk result (λ vs. vs ≡ all_told of.now (scope_around around.now)) }
{
    let mut known = first;
    for _round in 0..most {
        let next = declared_with(alloc, around, of, known.as_slice())?;
        if nothing_left(known.as_slice(), next.as_slice()) {
            return Ok(next);
        }
        known = next;
    }
    Err(NoMemory)
}

/// The locals of a routine, its result first, or of a program, with all that can be told of them. The constants are told in an order of need,
/// each item evaluated once, and then all in rounds until one tells nothing more; so it takes time linear in the text where the order is right,
/// which it is but where constants need themselves or names are declared twice.
pub fn told_locals(
    alloc: Global,
    around: &Around<'_>,
    of: &Declaring<'_>,
) -> Result<Series<DeclaredVariable>, NoMemory>
    requires { IsAround around.now }
    ensures { IfOk result (λ vs. vs ≡ all_told of.now (scope_around around.now)) }
{
    let names = written_names(alloc, sections_of(of))?;
    let known = told_in_order(alloc, around, of, &names)?;
    // each round but the last tells one value more at least
    settle(alloc, around, of, known, names.len().saturating_add(1))
}
