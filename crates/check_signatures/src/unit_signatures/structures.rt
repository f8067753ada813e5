//! The structures that a unit declares, with the types of their fields.

ghost use Rattle.std.specs.Prelude.{◌≡◌, [], ◌∷◌, ◌++◌, IfOk, OnOk};
ghost use Rattle.st_unit_rules.specs.declared_names.Declarations.{entries_in};
ghost use Rattle.default_values.specs.structure_worths.Unweighed.{AreDeclared};
ghost use Rattle.check_signatures.specs.unit_signatures.Private.Structures.{AddsEntries, DeclaresGroup, DeclaresGroups, groups_in};

use default_values::initial_worths::Group;
use default_values::structure_worths::DeclaredStructure;
use name_resolution::Scope;
use plc_text::NoMemory;
use st_tree::{Decl, FieldGroup, TypeBody, TypeDecl};
use std::alloc::Global;
use type_resolution::written_types::type_written;

fn group<'a>(
    alloc: Global,
    s: &Scope<'_>,
    declared: &'a FieldGroup<u32>,
) -> Result<Group<'a>, NoMemory>
    ensures { IfOk result (λ g. DeclaresGroup s.now declared.now g) }
{
    let kind = type_written(alloc, s, &declared.kind)?;
    Ok(Group {
        declared,
        kind,
        worth: None,
    })
}

fn structure<'a>(
    alloc: Global,
    s: &Scope<'_>,
    groups: &'a [FieldGroup<u32>],
) -> Result<DeclaredStructure<'a>, NoMemory>
    ensures { IfOk result (λ x. DeclaresGroups s.now groups.now x.groups.items) }
{
    let mut list = Vec::new(alloc);
    for declared in groups {
        let one = group(alloc, s, declared)?;
        list.push(one)?;
    }
    Ok(DeclaredStructure { groups: list })
}

/// The fields of a structure; what is none has no fields.
fn entry<'a>(
    alloc: Global,
    s: &Scope<'_>,
    body: &'a TypeBody<u32>,
) -> Result<DeclaredStructure<'a>, NoMemory>
    ensures { IfOk result (λ x. DeclaresGroups s.now (groups_in body.now) x.groups.items) }
{
    match body {
        TypeBody::Structure(groups) => {
            let declared = structure(alloc, s, groups.as_slice())?;
            Ok(declared)
        }
        TypeBody::Alias(_) => Ok(DeclaredStructure {
            groups: Vec::new(alloc),
        }),
        TypeBody::Enumeration(_) => Ok(DeclaredStructure {
            groups: Vec::new(alloc),
        }),
    }
}

fn add_entries<'a>(
    alloc: Global,
    s: &Scope<'_>,
    list: &mut Vec<DeclaredStructure<'a>>,
    entries: &'a [TypeDecl<u32>],
) -> Result<(), NoMemory>
    ensures { OnOk result (AddsEntries s.now list.old.items list.new.items entries.now) }
{
    for declared in entries {
        let one = entry(alloc, s, &declared.body)?;
        list.push(one)?;
    }
    Ok(())
}

fn add_declaration<'a>(
    alloc: Global,
    s: &Scope<'_>,
    list: &mut Vec<DeclaredStructure<'a>>,
    decl: &'a Decl<u32>,
) -> Result<(), NoMemory>
    ensures { OnOk result (AddsEntries s.now list.old.items list.new.items (entries_in (decl.now ∷ []))) }
{
    match decl {
        Decl::Types(_, entries) => {
            add_entries(alloc, s, list, entries.as_slice())?;
            Ok(())
        }
        Decl::Globals(_) => Ok(()),
        Decl::Interface(_) => Ok(()),
        Decl::Class(_) => Ok(()),
        Decl::Function(_) => Ok(()),
        Decl::Program(_) => Ok(()),
        Decl::Configuration(_) => Ok(()),
    }
}

/// What the entries of TYPE of a unit declare, in the scope of the unit.
pub fn declared_structures<'a>(
    alloc: Global,
    s: &Scope<'_>,
    decls: &'a [Decl<u32>],
) -> Result<Vec<DeclaredStructure<'a>>, NoMemory>
    ensures { IfOk result (λ xs. AreDeclared s.now (entries_in decls.now) xs.items) }
{
    let mut list = Vec::new(alloc);
    for decl in decls {
        add_declaration(alloc, s, &mut list, decl)?;
    }
    Ok(list)
}
