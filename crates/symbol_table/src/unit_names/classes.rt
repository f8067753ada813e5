//! Classes and function blocks, with their variables and methods.

ghost use Rattle.std.specs.Prelude.{◌≡◌, ◌∷◌, [], ◌++◌, IfOk, OnOk, MatchOption, Some, None, slice_get};
ghost use Rattle.st_rules.specs.Classes.{classes_in};
ghost use Rattle.st_unit_rules.specs.declared_names.UnitNames as unit_names;
ghost use Rattle.symbol_table.specs.unit_names.Private.Known.{AddsClass, IsClassAt, IsKnown, classes_from, decls_of, names_of};

use crate::unit_names::known::{Known, scope_of};
use crate::unit_names::routines::declared_methods;
use plc_text::{NoMemory, Series, one_more};
use st_rules::{DeclaredClass, DeclaredNames};
use st_tree::{ClassDecl, Decl};
use std::alloc::Global;
use type_resolution::declared_variables::declared_members;

/// The class of the number, with nothing told of it.
fn class_at(untold: &DeclaredNames, number: u32) -> Option<&DeclaredClass>
    ensures { MatchOption result (slice_get untold.now.classes number ≡ None) (λ c. slice_get untold.now.classes number ≡ Some c.now) }
{
    untold.classes.get(number as usize)
}

/// Adds a class, which has this number.
fn add_class(
    alloc: Global,
    known: &Known<'_>,
    untold: &DeclaredNames,
    list: &mut Series<DeclaredClass>,
    number: u32,
    class: &ClassDecl<u32>,
) -> Result<(), NoMemory>
    requires known { IsKnown known.now }
    requires untold { untold.now ≡ unit_names.names_told (decls_of known.now) 0 }
    requires class { slice_get (classes_in (decls_of known.now)) number ≡ Some class.now }
    ensures { OnOk result (list.new ≡ list.old ++ unit_names.class_declared (decls_of known.now) (names_of known.now) number class.now ∷ []) }
{
    let Some(names) = class_at(untold, number) else {
        return Err(NoMemory);
    };
    let s = scope_of(alloc, known, Some(number))?;
    let members = class.members.as_slice();
    let variables = declared_members(alloc, &s, names.variables.as_slice(), members)?;
    let methods = declared_methods(alloc, known, number, members)?;
    list.push(DeclaredClass {
        sort: class.sort,
        variables,
        methods,
    })?;
    Ok(())
}

/// Adds the class that a declaration is; the number of the next class.
fn add_declaration(
    alloc: Global,
    known: &Known<'_>,
    untold: &DeclaredNames,
    list: &mut Series<DeclaredClass>,
    number: u32,
    decl: &Decl<u32>,
) -> Result<u32, NoMemory>
    requires known { IsKnown known.now }
    requires untold { untold.now ≡ unit_names.names_told (decls_of known.now) 0 }
    requires class { IsClassAt (decls_of known.now) number decl.now }
    ensures { IfOk result (λ after. AddsClass known.now number after decl.now list.old list.new) }
{
    match decl {
        Decl::Class(class) => {
            add_class(alloc, known, untold, list, number, class)?;
            let after = one_more(number)?;
            Ok(after)
        }
        Decl::Types(_, _) => Ok(number),
        Decl::Globals(_) => Ok(number),
        Decl::Interface(_) => Ok(number),
        Decl::Function(_) => Ok(number),
        Decl::Program(_) => Ok(number),
        Decl::Configuration(_) => Ok(number),
    }
}

/// The classes of a unit, with their variables, whose numbers are those that they have where nothing is told, and their methods.
pub fn declared_classes(
    alloc: Global,
    known: &Known<'_>,
    untold: &DeclaredNames,
    decls: &[Decl<u32>],
) -> Result<Series<DeclaredClass>, NoMemory>
    requires known { IsKnown known.now }
    requires decls { decls.now ≡ decls_of known.now }
    requires untold { untold.now ≡ unit_names.names_told (decls_of known.now) 0 }
    ensures { IfOk result (λ list. list ≡ classes_from known.now 0 (classes_in decls.now)) }
{
    let mut list = Series::new(alloc);
    let mut number: u32 = 0;
    for decl in decls {
        number = add_declaration(alloc, known, untold, &mut list, number, decl)?;
    }
    Ok(list)
}
