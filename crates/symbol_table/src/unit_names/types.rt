//! Types, with what they are.

ghost use Rattle.std.specs.Prelude.{◌≡◌, ◌∷◌, [], ◌++◌, ◌+◌, List, ℕ, length, IfOk, OnOk};
ghost use Rattle.st_tree.specs.declared.unit.Decl.{Decl as ADecl};
ghost use Rattle.st_unit_rules.specs.declared_names.UnitNames as unit_names;
ghost use Rattle.symbol_table.specs.unit_names.Private.Known.{IsKnown, decls_of, names_of};

use crate::unit_names::known::{Known, scope_of};
use plc_text::{NoMemory, Series, Text, one_more};
use st_rules::DeclaredType;
use st_tree::{Decl, Name, TypeBody, TypeDecl};
use st_types::StType;
use std::alloc::Global;
use type_resolution::written_types::type_written;

/// What an entry of TYPE is, which has this number.
fn entry_kind(
    alloc: Global,
    known: &Known<'_>,
    number: u32,
    body: &TypeBody<u32>,
) -> Result<Option<StType>, NoMemory>
    requires { IsKnown known.now }
    ensures { IfOk result (λ k. k ≡ unit_names.entry_kind (decls_of known.now) (names_of known.now) number body.now) }
{
    match body {
        TypeBody::Alias(spec) => {
            let s = scope_of(alloc, known, None)?;
            let kind = type_written(alloc, &s, spec)?;
            Ok(kind)
        }
        TypeBody::Enumeration(_) => Ok(Some(StType::Enumeration(number))),
        TypeBody::Structure(_) => Ok(Some(StType::Structure(number))),
    }
}

fn add_type(
    alloc: Global,
    list: &mut Series<DeclaredType>,
    name: &Name,
    kind: Option<StType>,
) -> Result<(), NoMemory>
    ensures { OnOk result (list.new ≡ list.old ++ (record { name = name.now.text; kind = kind }) ∷ []) }
{
    let name = Text::copy(alloc, name.text.as_str())?;
    list.push(DeclaredType { name, kind })?;
    Ok(())
}

/// Adds entries of TYPE, the first with this number; the number behind them.
fn add_entries(
    alloc: Global,
    known: &Known<'_>,
    list: &mut Series<DeclaredType>,
    first: u32,
    entries: &[TypeDecl<u32>],
) -> Result<u32, NoMemory>
    requires { IsKnown known.now }
    ensures { IfOk result (λ after. (list.new ≡ list.old ++ unit_names.entries_declared (decls_of known.now) (names_of known.now) first entries.now) × (after ≡ first + length entries.now)) }
{
    let mut number = first;
    for entry in entries {
        let kind = entry_kind(alloc, known, number, &entry.body)?;
        add_type(alloc, list, &entry.name, kind)?;
        number = one_more(number)?;
    }
    Ok(number)
}

/// The numbers of the next entry of TYPE, class and interface.
#[derive(Clone, Copy)]
struct Next {
    entry: u32,
    class: u32,
    interface: u32,
}

/// Adds the types that a declaration declares; the numbers behind them.
fn add_declaration(
    alloc: Global,
    known: &Known<'_>,
    list: &mut Series<DeclaredType>,
    next: Next,
    decl: &Decl<u32>,
) -> Result<Next, NoMemory>
    requires { IsKnown known.now }
    ensures { IfOk result (λ after. (ds : List (ADecl ℕ)) → list.new ++ unit_names.types_declared (decls_of known.now) (names_of known.now) after.entry after.class after.interface ds
        ≡ list.old ++ unit_names.types_declared (decls_of known.now) (names_of known.now) next.entry next.class next.interface (decl.now ∷ ds)) }
{
    match decl {
        Decl::Types(_, entries) => {
            let entry = add_entries(alloc, known, list, next.entry, entries.as_slice())?;
            Ok(Next {
                entry,
                class: next.class,
                interface: next.interface,
            })
        }
        Decl::Class(class) => {
            add_type(alloc, list, &class.name, Some(StType::Instance(next.class)))?;
            let number = one_more(next.class)?;
            Ok(Next {
                entry: next.entry,
                class: number,
                interface: next.interface,
            })
        }
        Decl::Interface(interface) => {
            add_type(
                alloc,
                list,
                &interface.name,
                Some(StType::Interface(next.interface)),
            )?;
            let number = one_more(next.interface)?;
            Ok(Next {
                entry: next.entry,
                class: next.class,
                interface: number,
            })
        }
        Decl::Globals(_) => Ok(next),
        Decl::Function(_) => Ok(next),
        Decl::Program(_) => Ok(next),
        Decl::Configuration(_) => Ok(next),
    }
}

/// The entries of TYPE, classes and interfaces, in the order of the text.
pub fn declared_types(
    alloc: Global,
    known: &Known<'_>,
    decls: &[Decl<u32>],
) -> Result<Series<DeclaredType>, NoMemory>
    requires { IsKnown known.now }
    ensures { IfOk result (λ list. list ≡ unit_names.types_declared (decls_of known.now) (names_of known.now) 0 0 0 decls.now) }
{
    let mut list = Series::new(alloc);
    let mut next = Next {
        entry: 0,
        class: 0,
        interface: 0,
    };
    for decl in decls {
        next = add_declaration(alloc, known, &mut list, next, decl)?;
    }
    Ok(list)
}
