//! Types of which nothing is told but their names, and what entries of TYPE have.

ghost use Rattle.std.specs.Prelude.{◌≡◌, [], ◌∷◌, ◌++◌, map, flat_map, IfOk, OnOk};
ghost use Rattle.st_unit_rules.specs.declared_names.Declarations.{entries_in};
ghost use Rattle.declared_symbols.specs.untold_names.Untold as untold;

use plc_text::{Items, NoMemory, Series, Text};
use st_rules::{DeclaredField, DeclaredType, TypeParts, texts};
use st_tree::{Decl, FieldGroup, Name, TypeBody, TypeDecl};
use std::alloc::Global;

fn untold_type(alloc: Global, name: &Name) -> Result<DeclaredType, NoMemory>
    ensures { IfOk result (λ t. t ≡ untold.untold_type name.now) }
{
    let text = Text::copy(alloc, name.text.as_str())?;
    Ok(DeclaredType {
        name: text,
        kind: None,
    })
}

fn add_entries(
    alloc: Global,
    list: &mut Series<DeclaredType>,
    entries: &[TypeDecl<u32>],
) -> Result<(), NoMemory>
    ensures { OnOk result (list.new ≡ list.old ++ map (λ t. untold.untold_type t.name) entries.now) }
{
    for entry in entries {
        let declared = untold_type(alloc, &entry.name)?;
        list.push(declared)?;
    }
    Ok(())
}

fn add_types(
    alloc: Global,
    list: &mut Series<DeclaredType>,
    decl: &Decl<u32>,
) -> Result<(), NoMemory>
    ensures { OnOk result (list.new ≡ list.old ++ untold.untold_types (decl.now ∷ [])) }
{
    match decl {
        Decl::Types(_, entries) => add_entries(alloc, list, entries.as_slice())?,
        Decl::Class(class) => {
            let declared = untold_type(alloc, &class.name)?;
            list.push(declared)?;
        }
        Decl::Interface(interface) => {
            let declared = untold_type(alloc, &interface.name)?;
            list.push(declared)?;
        }
        _ => {}
    }
    Ok(())
}

/// The entries of TYPE, classes and interfaces of a unit, in the order of the text.
pub fn untold_types(alloc: Global, decls: &[Decl<u32>]) -> Result<Series<DeclaredType>, NoMemory>
    ensures { IfOk result (λ list. list ≡ untold.untold_types decls.now) }
{
    let mut list = Series::new(alloc);
    for decl in decls {
        add_types(alloc, &mut list, decl)?;
    }
    Ok(list)
}

// ---- what entries have

fn untold_field(alloc: Global, name: &Name) -> Result<DeclaredField, NoMemory>
    ensures { IfOk result (λ f. f ≡ untold.untold_field name.now) }
{
    let text = Text::copy(alloc, name.text.as_str())?;
    Ok(DeclaredField {
        name: text,
        kind: None,
    })
}

fn add_group(alloc: Global, list: &mut Items<DeclaredField>, names: &[Name]) -> Result<(), NoMemory>
    ensures { OnOk result (list.new ≡ list.old ++ map untold.untold_field names.now) }
{
    for name in names {
        let field = untold_field(alloc, name)?;
        list.push(field)?;
    }
    Ok(())
}

fn fields(alloc: Global, groups: &[FieldGroup<u32>]) -> Result<Items<DeclaredField>, NoMemory>
    ensures { IfOk result (λ list. list ≡ flat_map untold.untold_group groups.now) }
{
    let mut list = Items::new(alloc);
    for group in groups {
        add_group(alloc, &mut list, group.names.as_slice())?;
    }
    Ok(list)
}

fn untold_part(alloc: Global, body: &TypeBody<u32>) -> Result<TypeParts, NoMemory>
    ensures { IfOk result (λ p. p ≡ untold.untold_parts body.now) }
{
    match body {
        TypeBody::Alias(_) => Ok(TypeParts::Nothing),
        TypeBody::Enumeration(names) => {
            let values = texts(alloc, names.as_slice())?;
            Ok(TypeParts::Values(values))
        }
        TypeBody::Structure(groups) => {
            let all = fields(alloc, groups.as_slice())?;
            Ok(TypeParts::Fields(all))
        }
    }
}

fn add_entry_parts(
    alloc: Global,
    list: &mut Items<TypeParts>,
    entries: &[TypeDecl<u32>],
) -> Result<(), NoMemory>
    ensures { OnOk result (list.new ≡ list.old ++ map (λ t. untold.untold_parts t.body) entries.now) }
{
    for entry in entries {
        let part = untold_part(alloc, &entry.body)?;
        list.push(part)?;
    }
    Ok(())
}

fn add_parts(alloc: Global, list: &mut Items<TypeParts>, decl: &Decl<u32>) -> Result<(), NoMemory>
    ensures { OnOk result (list.new ≡ list.old ++ map (λ t. untold.untold_parts t.body) (entries_in (decl.now ∷ []))) }
{
    match decl {
        Decl::Types(_, entries) => add_entry_parts(alloc, list, entries.as_slice())?,
        _ => {}
    }
    Ok(())
}

/// What the entries of TYPE of a unit have: the names of values, or fields.
pub fn untold_parts(alloc: Global, decls: &[Decl<u32>]) -> Result<Items<TypeParts>, NoMemory>
    ensures { IfOk result (λ list. list ≡ map (λ t. untold.untold_parts t.body) (entries_in decls.now)) }
{
    let mut list = Items::new(alloc);
    for decl in decls {
        add_parts(alloc, &mut list, decl)?;
    }
    Ok(list)
}
