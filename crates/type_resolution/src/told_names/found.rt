//! What can be told of a group from what is told so far.

ghost use Rattle.std.specs.Prelude.{◌≡◌, IfOk};
ghost use Rattle.st_rules.specs.Classes.{classes_in};
ghost use Rattle.name_resolution.specs.Tables.{Knows};
ghost use Rattle.st_unit_rules.specs.declaration_list.Written.{written_of};
ghost use Rattle.type_resolution.specs.written_types.Types.{TellsConstant};
ghost use Rattle.resolution_order.specs.telling_groups.Groups.{group_of};
ghost use Rattle.type_resolution.specs.told_names.Private.State as state;
ghost use Rattle.type_resolution.specs.told_names.Private.State.{IsState};

use crate::written_types::{constant_of, type_written};
use class_tables::ClassTables;
use iface_tables::IfaceTables;
use name_resolution::{NameTables, Scope};
use plc_text::NoMemory;
use resolution_order::telling_groups::Group;
use st_tree::TypeBody;
use st_types::StType;
use st_unit_rules::declaration_list::WrittenName;
use std::alloc::Global;

/// The type of an entry of TYPE, which has this number.
fn entry_kind(
    alloc: Global,
    s: &Scope<'_>,
    number: u32,
    body: &TypeBody<u32>,
) -> Result<Option<StType>, NoMemory>
    ensures { IfOk result (λ k. k ≡ state.entry_in s.now number body.now) }
{
    match body {
        TypeBody::Alias(spec) => {
            let kind = type_written(alloc, s, spec)?;
            Ok(kind)
        }
        TypeBody::Enumeration(_) => Ok(Some(StType::Enumeration(number))),
        TypeBody::Structure(_) => Ok(Some(StType::Structure(number))),
    }
}

/// What can be told of an entry of TYPE, which has this number.
fn found_entry(
    alloc: Global,
    tables: &NameTables,
    classes: &ClassTables,
    interfaces: &IfaceTables,
    number: u32,
    body: &TypeBody<u32>,
) -> Result<Option<(StType, i128)>, NoMemory>
    requires same { interfaces.now ≡ classes.now }
    requires state { IsState classes.now.decls tables.now }
    ensures { IfOk result (λ x. state.FindsEntry x classes.now.decls tables.now.names number body.now) }
{
    let s = Scope::within(alloc, tables, classes, interfaces, &[], None, false)?;
    match entry_kind(alloc, &s, number, body)? {
        Some(kind) => Ok(Some((kind, 0))),
        None => Ok(None),
    }
}

/// What can be told of a constant of a class or of none.
fn found_constant(
    alloc: Global,
    tables: &NameTables,
    classes: &ClassTables,
    interfaces: &IfaceTables,
    class: Option<u32>,
    name: &WrittenName<'_>,
) -> Result<Option<(StType, i128)>, NoMemory>
    requires same { interfaces.now ≡ classes.now }
    requires state { IsState classes.now.decls tables.now }
    ensures { IfOk result (λ x. TellsConstant x (state.scope_in classes.now.decls tables.now.names class) (written_of name.now)) }
{
    let s = Scope::within(alloc, tables, classes, interfaces, &[], class, false)?;
    let told = constant_of(alloc, &s, name)?;
    Ok(told)
}

/// What can be told of a group; the number counts for constants alone.
pub fn found(
    alloc: Global,
    tables: &NameTables,
    classes: &ClassTables,
    interfaces: &IfaceTables,
    group: &Group<'_>,
) -> Result<Option<(StType, i128)>, NoMemory>
    requires same { interfaces.now ≡ classes.now }
    requires state { IsState classes.now.decls tables.now }
    ensures { IfOk result (λ x. state.Finds x classes.now.decls tables.now.names (group_of group.now)) }
{
    match group {
        Group::Entry(_, number, entry) => {
            let told = found_entry(alloc, tables, classes, interfaces, *number, &entry.body)?;
            Ok(told)
        }
        Group::Interface(_, number, _) => Ok(Some((StType::Interface(*number), 0))),
        Group::Class(_, number, _) => Ok(Some((StType::Instance(*number), 0))),
        Group::Globals(_, name) => {
            let told = found_constant(alloc, tables, classes, interfaces, None, name)?;
            Ok(told)
        }
        Group::Members(class, _, name) => {
            let told = found_constant(alloc, tables, classes, interfaces, Some(*class), name)?;
            Ok(told)
        }
    }
}
