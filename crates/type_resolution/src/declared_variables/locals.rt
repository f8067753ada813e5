//! The locals of functions and methods.

ghost use Rattle.std.specs.Prelude.{◌≡◌, ◌∷◌, ◌++◌, ◌+◌, List, Some, map, filter, length, IfOk};
ghost use Rattle.st_unit_rules.specs.declared_names.Variables as variables;
ghost use Rattle.st_unit_rules.specs.declaration_list.Written.{written_of};
ghost use Rattle.type_resolution.specs.declared_variables.Private.Told as own;
ghost use Rattle.type_resolution.specs.declared_variables.Private.Told.{ToldName as AToldName};

use crate::declared_variables::members::{declared, number_behind};
use crate::declared_variables::names::{ToldName, told_names};
use crate::written_types::type_written;
use name_resolution::Scope;
use plc_text::{NoMemory, Series, Text};
use st_rules::{Access, DeclaredVariable, is_body_sort, is_instance_sort, is_parameter_sort};
use st_tree::{Name, Section, SectionSort, Target, TypeSpec};
use st_unit_rules::declaration_list::{WrittenName, is_parameter};
use std::alloc::Global;

/// Whether it is a local that is no parameter.
fn is_other(name: &WrittenName<'_>) -> bool
    ensures { result ≡ own.is_other_written (written_of name.now) }
{
    let sort = name.section.sort;
    (is_instance_sort(sort) || is_body_sort(sort))
        && !is_parameter_sort(sort)
        && !name.is_constant()
}

fn local_target(name: &WrittenName<'_>, parameter: u32, other: u32) -> Target
    ensures { result ≡ own.local_target parameter other (written_of name.now) }
{
    if is_parameter(name) {
        Target::Local(parameter)
    } else if is_other(name) {
        Target::Local(other)
    } else {
        Target::Nothing
    }
}

/// The numbers of the next parameter and of the next of the others.
#[derive(Clone, Copy)]
struct Numbers {
    parameter: u32,
    other: u32,
}

/// Adds what a name declares; the numbers behind it.
#[tactic(auto, using(crate::proofs::declared_variables::NumberLaws::local_added))]
fn add_local(
    alloc: Global,
    list: &mut Series<DeclaredVariable>,
    next: Numbers,
    told: &ToldName<'_>,
) -> Result<Numbers, NoMemory>
    ensures { IfOk result (λ after. (ts : List AToldName) → list.new ++ own.locals_told after.parameter after.other ts ≡ list.old ++ own.locals_told next.parameter next.other (own.told_as told.now ∷ ts)) }
{
    let target = local_target(&told.name, next.parameter, next.other);
    let variable = declared(alloc, told, target)?;
    list.push(variable)?;
    let parameter = number_behind(is_parameter(&told.name), next.parameter)?;
    let other = number_behind(is_other(&told.name), next.other)?;
    Ok(Numbers { parameter, other })
}

/// Adds what names declare, numbered from these numbers on.
fn add_numbered(
    alloc: Global,
    list: &mut Series<DeclaredVariable>,
    first: Numbers,
    names: &[ToldName<'_>],
) -> Result<(), NoMemory>
    ensures { IfOk result (λ u. list.new ≡ list.old ++ own.locals_told first.parameter first.other (map own.told_as names.now)) }
{
    let mut next = first;
    for name in names {
        next = add_local(alloc, list, next, name)?;
    }
    Ok(())
}

/// How many names are parameters, and the number with which they begin.
fn count_parameters(first: u32, names: &[ToldName<'_>]) -> Result<u32, NoMemory>
    ensures { IfOk result (λ n. n ≡ first + length (filter variables.is_parameter_written (map (λ t. t.written) (map own.told_as names.now)))) }
{
    let mut count = first;
    for told in names {
        count = number_behind(is_parameter(&told.name), count)?;
    }
    Ok(count)
}

/// The result of a routine, as a local that has its name.
fn add_result(
    alloc: Global,
    s: &Scope<'_>,
    list: &mut Series<DeclaredVariable>,
    name: &Text,
    kind: &TypeSpec<u32>,
) -> Result<(), NoMemory>
    ensures { IfOk result (λ u. list.new ≡ list.old ++ variables.result_declared s.now name.now (Some kind.now)) }
{
    let text = Text::copy(alloc, name.as_str())?;
    let kind = type_written(alloc, s, kind)?;
    list.push(DeclaredVariable {
        name: text,
        sort: SectionSort::Var,
        constant: false,
        access: Access::Public,
        located_input: false,
        kind,
        target: Target::Local(0),
    })?;
    Ok(())
}

/// A list with the result of a routine, where it has one.
fn result_of(
    alloc: Global,
    s: &Scope<'_>,
    name: &Text,
    of: &Option<TypeSpec<u32>>,
) -> Result<Series<DeclaredVariable>, NoMemory>
    ensures { IfOk result (λ vs. vs ≡ variables.result_declared s.now name.now of.now) }
{
    let mut list = Series::new(alloc);
    match of {
        Some(kind) => add_result(alloc, s, &mut list, name, kind)?,
        None => {}
    }
    Ok(list)
}

fn result_count(s: &Scope<'_>, of: &Option<TypeSpec<u32>>) -> u32
    ensures { result ≡ variables.result_count s.now of.now }
{
    match of {
        Some(_) => 1,
        None => 0,
    }
}

/// The locals of a function or a method, its result first, in the scope of its body. It takes time linear in the text.
#[tactic(auto, using(crate::proofs::declared_variables::NumberLaws::locals_are))]
pub fn declared_locals(
    alloc: Global,
    s: &Scope<'_>,
    name: &Name,
    of: &Option<TypeSpec<u32>>,
    sections: &[Section<u32>],
) -> Result<Series<DeclaredVariable>, NoMemory>
    ensures { IfOk result (λ vs. vs ≡ variables.routine_locals s.now name.now.text of.now sections.now) }
{
    let mut list = result_of(alloc, s, &name.text, of)?;
    let names = told_names(alloc, s, sections)?;
    let first = result_count(s, of);
    let behind = count_parameters(first, &names)?;
    let numbers = Numbers {
        parameter: first,
        other: behind,
    };
    add_numbered(alloc, &mut list, numbers, &names)?;
    Ok(list)
}
