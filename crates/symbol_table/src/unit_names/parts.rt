//! What entries of TYPE have, with the types of fields.

ghost use Rattle.std.specs.Prelude.{◌≡◌, [], ◌∷◌, ◌++◌, map, flat_map, IfOk, OnOk};
ghost use Rattle.st_unit_rules.specs.declared_names.Declarations.{entries_in};
ghost use Rattle.st_unit_rules.specs.declared_names.UnitNames as unit_names;
ghost use Rattle.symbol_table.specs.unit_names.Private.Known.{IsKnown, decls_of, field_of, group_in, names_of};

use crate::unit_names::known::{Known, scope_of};
use name_resolution::Scope;
use plc_text::{Items, NoMemory, Text};
use st_rules::{DeclaredField, TypeParts, copied, texts};
use st_tree::{Decl, FieldGroup, Name, TypeBody, TypeDecl};
use st_types::StType;
use std::alloc::Global;
use type_resolution::written_types::type_written;

fn field(alloc: Global, kind: &Option<StType>, name: &Name) -> Result<DeclaredField, NoMemory>
    ensures { IfOk result (λ f. f ≡ field_of kind.now name.now) }
{
    let text = Text::copy(alloc, name.text.as_str())?;
    let kind = copied(alloc, kind)?;
    Ok(DeclaredField { name: text, kind })
}

fn add_fields(
    alloc: Global,
    list: &mut Items<DeclaredField>,
    kind: &Option<StType>,
    names: &[Name],
) -> Result<(), NoMemory>
    ensures { OnOk result (list.new ≡ list.old ++ map (field_of kind.now) names.now) }
{
    for name in names {
        let one = field(alloc, kind, name)?;
        list.push(one)?;
    }
    Ok(())
}

/// Adds the fields of a group, which is evaluated once.
fn add_group(
    alloc: Global,
    s: &Scope<'_>,
    list: &mut Items<DeclaredField>,
    group: &FieldGroup<u32>,
) -> Result<(), NoMemory>
    ensures { OnOk result (list.new ≡ list.old ++ group_in s.now group.now) }
{
    let kind = type_written(alloc, s, &group.kind)?;
    add_fields(alloc, list, &kind, group.names.as_slice())?;
    Ok(())
}

fn fields(
    alloc: Global,
    s: &Scope<'_>,
    groups: &[FieldGroup<u32>],
) -> Result<Items<DeclaredField>, NoMemory>
    ensures { IfOk result (λ list. list ≡ flat_map (group_in s.now) groups.now) }
{
    let mut list = Items::new(alloc);
    for group in groups {
        add_group(alloc, s, &mut list, group)?;
    }
    Ok(list)
}

fn part(alloc: Global, known: &Known<'_>, body: &TypeBody<u32>) -> Result<TypeParts, NoMemory>
    requires { IsKnown known.now }
    ensures { IfOk result (λ p. p ≡ unit_names.parts_declared (decls_of known.now) (names_of known.now) body.now) }
{
    match body {
        TypeBody::Alias(_) => Ok(TypeParts::Nothing),
        TypeBody::Enumeration(names) => {
            let values = texts(alloc, names.as_slice())?;
            Ok(TypeParts::Values(values))
        }
        TypeBody::Structure(groups) => {
            let s = scope_of(alloc, known, None)?;
            let all = fields(alloc, &s, groups.as_slice())?;
            Ok(TypeParts::Fields(all))
        }
    }
}

fn add_entry_parts(
    alloc: Global,
    known: &Known<'_>,
    list: &mut Items<TypeParts>,
    entries: &[TypeDecl<u32>],
) -> Result<(), NoMemory>
    requires { IsKnown known.now }
    ensures { OnOk result (list.new ≡ list.old ++ map (λ t. unit_names.parts_declared (decls_of known.now) (names_of known.now) t.body) entries.now) }
{
    for entry in entries {
        let one = part(alloc, known, &entry.body)?;
        list.push(one)?;
    }
    Ok(())
}

fn add_parts(
    alloc: Global,
    known: &Known<'_>,
    list: &mut Items<TypeParts>,
    decl: &Decl<u32>,
) -> Result<(), NoMemory>
    requires { IsKnown known.now }
    ensures { OnOk result (list.new ≡ list.old ++ map (λ t. unit_names.parts_declared (decls_of known.now) (names_of known.now) t.body) (entries_in (decl.now ∷ []))) }
{
    match decl {
        Decl::Types(_, entries) => add_entry_parts(alloc, known, list, entries.as_slice())?,
        _ => {}
    }
    Ok(())
}

/// What the entries of TYPE of a unit have: the names of values, or fields with their types.
pub fn declared_parts(
    alloc: Global,
    known: &Known<'_>,
    decls: &[Decl<u32>],
) -> Result<Items<TypeParts>, NoMemory>
    requires { IsKnown known.now }
    ensures { IfOk result (λ list. list ≡ map (λ t. unit_names.parts_declared (decls_of known.now) (names_of known.now) t.body) (entries_in decls.now)) }
{
    let mut list = Items::new(alloc);
    for decl in decls {
        add_parts(alloc, known, &mut list, decl)?;
    }
    Ok(list)
}
