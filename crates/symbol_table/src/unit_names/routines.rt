//! Functions, methods and methods of interfaces, with their results and parameters.

ghost use Rattle.std.specs.Prelude.{◌≡◌, [], ◌∷◌, ◌++◌, map, filter, Some, IfOk, OnOk};
ghost use Rattle.st_rules.specs.Calls as calls;
ghost use Rattle.st_rules.specs.Classes.{methods_in};
ghost use Rattle.st_rules.specs.Interfaces.{interfaces_in};
ghost use Rattle.st_unit_rules.specs.declared_names.UnitNames as unit_names;
ghost use Rattle.type_resolution.specs.told_locals.Around.{IsAround, scope_around};
ghost use Rattle.symbol_table.specs.unit_names.Private.Known.{IsKnown, decls_of, names_of, within};

use crate::unit_names::known::{Known, around};
use name_resolution::Scope;
use plc_text::{Items, NoMemory, Series, Text};
use st_rules::{DeclaredRoutine, DeclaredVariable, ResultType, copied, is_abstract, method_access};
use st_tree::{Decl, Member, Method, Modifier, Name, Prototype, Section, SectionSort, TypeSpec};
use std::alloc::Global;
use type_resolution::told_locals::{Around, Declaring, told_locals};
use type_resolution::written_types::type_written;

fn copied_variable(alloc: Global, variable: &DeclaredVariable) -> Result<DeclaredVariable, NoMemory>
    ensures { IfOk result (λ v. v ≡ variable.now) }
{
    let name = Text::copy(alloc, variable.name.as_str())?;
    let kind = copied(alloc, &variable.kind)?;
    Ok(DeclaredVariable {
        name,
        sort: variable.sort,
        constant: variable.constant,
        access: variable.access,
        located_input: variable.located_input,
        kind,
        target: variable.target,
    })
}

fn is_parameter(variable: &DeclaredVariable) -> bool
    ensures { result ≡ calls.is_parameter variable.now }
{
    matches!(
        variable.sort,
        SectionSort::Input | SectionSort::Output | SectionSort::InOut
    ) && !variable.constant
}

fn add_parameter(
    alloc: Global,
    list: &mut Series<DeclaredVariable>,
    variable: &DeclaredVariable,
) -> Result<(), NoMemory>
    ensures { OnOk result (list.new ≡ list.old ++ filter calls.is_parameter (variable.now ∷ [])) }
{
    if is_parameter(variable) {
        let copy = copied_variable(alloc, variable)?;
        list.push(copy)?;
    }
    Ok(())
}

fn parameters(
    alloc: Global,
    locals: &[DeclaredVariable],
) -> Result<Series<DeclaredVariable>, NoMemory>
    ensures { IfOk result (λ list. list ≡ filter calls.is_parameter locals.now) }
{
    let mut list = Series::new(alloc);
    for variable in locals {
        add_parameter(alloc, &mut list, variable)?;
    }
    Ok(list)
}

/// The result of a routine with these locals.
fn outcome(
    alloc: Global,
    around: &Around<'_>,
    locals: &[DeclaredVariable],
    of: &Option<TypeSpec<u32>>,
) -> Result<ResultType, NoMemory>
    requires { IsAround around.now }
    ensures { IfOk result (λ r. r ≡ unit_names.result_written (within around.now locals.now) of.now) }
{
    match of {
        None => Ok(ResultType::Nothing),
        Some(spec) => {
            let s = Scope::within(
                alloc,
                around.names,
                around.classes,
                around.interfaces,
                locals,
                around.class,
                around.in_method,
            )?;
            let kind = type_written(alloc, &s, spec)?;
            Ok(ResultType::Written(kind))
        }
    }
}

/// A function, a method, or a method of an interface, with the words before it, its result and its sections. The type of the result is
/// written in the routine, whose constants are seen in it.
pub fn declared_routine(
    alloc: Global,
    around: &Around<'_>,
    name: &Name,
    modifiers: &[Modifier],
    of: &Option<TypeSpec<u32>>,
    sections: &[Section<u32>],
) -> Result<DeclaredRoutine, NoMemory>
    requires { IsAround around.now }
    ensures { IfOk result (λ r. r ≡ unit_names.routine_declared (scope_around around.now) name.now.text modifiers.now of.now sections.now) }
{
    let text = Text::copy(alloc, name.text.as_str())?;
    let list = told_locals(alloc, around, &Declaring::Routine(name, of, sections))?;
    let locals = list.as_slice();
    let outcome = outcome(alloc, around, locals, of)?;
    let parameters = parameters(alloc, locals)?;
    Ok(DeclaredRoutine {
        name: text,
        access: method_access(modifiers),
        abstract_method: is_abstract(modifiers),
        outcome,
        parameters,
    })
}

fn method(
    alloc: Global,
    known: &Known<'_>,
    class: u32,
    method: &Method<u32>,
) -> Result<DeclaredRoutine, NoMemory>
    requires { IsKnown known.now }
    ensures { IfOk result (λ r. r ≡ unit_names.method_declared (decls_of known.now) (names_of known.now) class method.now) }
{
    let around = around(known, Some(class), true);
    let routine = declared_routine(
        alloc,
        &around,
        &method.name,
        method.modifiers.as_slice(),
        &method.result,
        method.sections.as_slice(),
    )?;
    Ok(routine)
}

fn add_method(
    alloc: Global,
    known: &Known<'_>,
    class: u32,
    list: &mut Items<DeclaredRoutine>,
    member: &Member<u32>,
) -> Result<(), NoMemory>
    requires { IsKnown known.now }
    ensures { OnOk result (list.new ≡ list.old ++ map (unit_names.method_declared (decls_of known.now) (names_of known.now) class) (methods_in (member.now ∷ []))) }
{
    match member {
        Member::Method(declared) => {
            let routine = method(alloc, known, class, declared)?;
            list.push(routine)?;
        }
        Member::Section(_) => {}
    }
    Ok(())
}

/// The methods among the members of a class.
pub fn declared_methods(
    alloc: Global,
    known: &Known<'_>,
    class: u32,
    members: &[Member<u32>],
) -> Result<Items<DeclaredRoutine>, NoMemory>
    requires { IsKnown known.now }
    ensures { IfOk result (λ list. list ≡ map (unit_names.method_declared (decls_of known.now) (names_of known.now) class) (methods_in members.now)) }
{
    let mut list = Items::new(alloc);
    for member in members {
        add_method(alloc, known, class, &mut list, member)?;
    }
    Ok(list)
}

fn prototype(
    alloc: Global,
    known: &Known<'_>,
    method: &Prototype<u32>,
) -> Result<DeclaredRoutine, NoMemory>
    requires { IsKnown known.now }
    ensures { IfOk result (λ r. r ≡ unit_names.prototype_declared (decls_of known.now) (names_of known.now) method.now) }
{
    let around = around(known, None, false);
    let routine = declared_routine(
        alloc,
        &around,
        &method.name,
        &[],
        &method.result,
        method.sections.as_slice(),
    )?;
    Ok(routine)
}

fn prototypes(
    alloc: Global,
    known: &Known<'_>,
    methods: &[Prototype<u32>],
) -> Result<Items<DeclaredRoutine>, NoMemory>
    requires { IsKnown known.now }
    ensures { IfOk result (λ list. list ≡ map (unit_names.prototype_declared (decls_of known.now) (names_of known.now)) methods.now) }
{
    let mut list = Items::new(alloc);
    for method in methods {
        let routine = prototype(alloc, known, method)?;
        list.push(routine)?;
    }
    Ok(list)
}

fn add_interface(
    alloc: Global,
    known: &Known<'_>,
    list: &mut Items<Items<DeclaredRoutine>>,
    decl: &Decl<u32>,
) -> Result<(), NoMemory>
    requires { IsKnown known.now }
    ensures { OnOk result (list.new ≡ list.old ++ map (unit_names.interface_declared (decls_of known.now) (names_of known.now)) (interfaces_in (decl.now ∷ []))) }
{
    match decl {
        Decl::Interface(interface) => {
            let methods = prototypes(alloc, known, interface.methods.as_slice())?;
            list.push(methods)?;
        }
        _ => {}
    }
    Ok(())
}

/// The methods of the interfaces of a unit, in the order of the text.
pub fn declared_interfaces(
    alloc: Global,
    known: &Known<'_>,
    decls: &[Decl<u32>],
) -> Result<Items<Items<DeclaredRoutine>>, NoMemory>
    requires { IsKnown known.now }
    ensures { IfOk result (λ list. list ≡ map (unit_names.interface_declared (decls_of known.now) (names_of known.now)) (interfaces_in decls.now)) }
{
    let mut list = Items::new(alloc);
    for decl in decls {
        add_interface(alloc, known, &mut list, decl)?;
    }
    Ok(list)
}
