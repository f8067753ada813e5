//! Routines of which nothing is told.

ghost use Rattle.std.specs.Prelude.{◌≡◌, [], ◌∷◌, ◌++◌, map, IfOk, OnOk};
ghost use Rattle.st_rules.specs.Classes.{methods_in};
ghost use Rattle.declared_symbols.specs.untold_names.Untold as untold;

use crate::untold_names::variables::untold_parameters;
use plc_text::{Items, NoMemory, Text};
use st_rules::{DeclaredRoutine, ResultType, is_abstract, method_access};
use st_tree::{Member, Method, Modifier, Name, Prototype, Section, TypeSpec};
use st_unit_rules::declaration_list::written_names;
use std::alloc::Global;

fn untold_outcome(of: &Option<TypeSpec<u32>>) -> ResultType
    ensures { result ≡ untold.untold_outcome of.now }
{
    match of {
        None => ResultType::Nothing,
        Some(_) => ResultType::Written(None),
    }
}

fn first_parameter(of: &Option<TypeSpec<u32>>) -> u32
    ensures { result ≡ untold.first_parameter of.now }
{
    match of {
        None => 0,
        Some(_) => 1,
    }
}

/// A function, a method, or a method of an interface, with the words before it, its result and its sections.
pub fn untold_routine(
    alloc: Global,
    name: &Name,
    modifiers: &[Modifier],
    of: &Option<TypeSpec<u32>>,
    sections: &[Section<u32>],
) -> Result<DeclaredRoutine, NoMemory>
    ensures { IfOk result (λ r. r ≡ untold.untold_routine name.now.text modifiers.now of.now sections.now) }
{
    let text = Text::copy(alloc, name.text.as_str())?;
    let names = written_names(alloc, sections)?;
    let parameters = untold_parameters(alloc, first_parameter(of), &names)?;
    Ok(DeclaredRoutine {
        name: text,
        access: method_access(modifiers),
        abstract_method: is_abstract(modifiers),
        outcome: untold_outcome(of),
        parameters,
    })
}

fn untold_method(alloc: Global, method: &Method<u32>) -> Result<DeclaredRoutine, NoMemory>
    ensures { IfOk result (λ r. r ≡ untold.untold_method method.now) }
{
    let routine = untold_routine(
        alloc,
        &method.name,
        method.modifiers.as_slice(),
        &method.result,
        method.sections.as_slice(),
    )?;
    Ok(routine)
}

fn untold_prototype(alloc: Global, method: &Prototype<u32>) -> Result<DeclaredRoutine, NoMemory>
    ensures { IfOk result (λ r. r ≡ untold.untold_prototype method.now) }
{
    let routine = untold_routine(
        alloc,
        &method.name,
        &[],
        &method.result,
        method.sections.as_slice(),
    )?;
    Ok(routine)
}

/// The methods of an interface.
pub fn untold_prototypes(
    alloc: Global,
    methods: &[Prototype<u32>],
) -> Result<Items<DeclaredRoutine>, NoMemory>
    ensures { IfOk result (λ list. list ≡ map untold.untold_prototype methods.now) }
{
    let mut list = Items::new(alloc);
    for method in methods {
        let routine = untold_prototype(alloc, method)?;
        list.push(routine)?;
    }
    Ok(list)
}

fn add_method(
    alloc: Global,
    list: &mut Items<DeclaredRoutine>,
    member: &Member<u32>,
) -> Result<(), NoMemory>
    ensures { OnOk result (list.new ≡ list.old ++ map untold.untold_method (methods_in (member.now ∷ []))) }
{
    match member {
        Member::Method(method) => {
            let routine = untold_method(alloc, method)?;
            list.push(routine)?;
        }
        Member::Section(_) => {}
    }
    Ok(())
}

/// The methods among the members of a class.
pub fn untold_methods(
    alloc: Global,
    members: &[Member<u32>],
) -> Result<Items<DeclaredRoutine>, NoMemory>
    ensures { IfOk result (λ list. list ≡ map untold.untold_method (methods_in members.now)) }
{
    let mut list = Items::new(alloc);
    for member in members {
        add_method(alloc, &mut list, member)?;
    }
    Ok(list)
}
