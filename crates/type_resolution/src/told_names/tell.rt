//! What was found of a group is told of all that it declares.

ghost use Rattle.std.specs.Prelude.{OnOk};
ghost use Rattle.st_rules.specs.Telling.{with_global, with_member, with_type};
ghost use Rattle.st_tree.specs.declared.program.Target.TheVariants as target;
ghost use Rattle.resolution_order.specs.telling_groups.Groups.{group_of, jobs_of_group};
ghost use Rattle.type_resolution.specs.told_names.Private.State.{Retold, with_globals, with_jobs, with_members};

use name_resolution::NameTables;
use plc_text::{NoMemory, one_more};
use resolution_order::telling_groups::Group;
use st_tree::{Name, Target};
use st_types::StType;
use std::alloc::Global;

fn tell_global(
    alloc: Global,
    tables: &mut NameTables,
    place: u32,
    found: &(StType, i128),
) -> Result<(), NoMemory>
    ensures { OnOk result (Retold (with_global tables.old.names place found.now.0 (target.Constant found.now.1)) tables.old tables.new) }
{
    let kind = found.0.copy(alloc)?;
    tables.tell_global(place, kind, Target::Constant(found.1));
    Ok(())
}

fn tell_member(
    alloc: Global,
    tables: &mut NameTables,
    class: u32,
    place: u32,
    found: &(StType, i128),
) -> Result<(), NoMemory>
    ensures { OnOk result (Retold (with_member tables.old.names class place found.now.0 (target.Constant found.now.1)) tables.old tables.new) }
{
    let kind = found.0.copy(alloc)?;
    tables.tell_member(class, place, kind, Target::Constant(found.1));
    Ok(())
}

/// Tells as many globals as there are names, the first at this place.
fn tell_globals(
    alloc: Global,
    tables: &mut NameTables,
    first: u32,
    names: &[Name],
    found: &(StType, i128),
) -> Result<(), NoMemory>
    ensures { OnOk result (Retold (with_globals tables.old.names first names.now found.now.0 found.now.1) tables.old tables.new) }
{
    let mut place = first;
    for _name in names {
        tell_global(alloc, tables, place, found)?;
        place = one_more(place)?;
    }
    Ok(())
}

/// The same of a class.
fn tell_members(
    alloc: Global,
    tables: &mut NameTables,
    class: u32,
    first: u32,
    names: &[Name],
    found: &(StType, i128),
) -> Result<(), NoMemory>
    ensures { OnOk result (Retold (with_members tables.old.names class first names.now found.now.0 found.now.1) tables.old tables.new) }
{
    let mut place = first;
    for _name in names {
        tell_member(alloc, tables, class, place, found)?;
        place = one_more(place)?;
    }
    Ok(())
}

fn tell_type(
    alloc: Global,
    tables: &mut NameTables,
    place: u32,
    found: &(StType, i128),
) -> Result<(), NoMemory>
    ensures { OnOk result (Retold (with_type tables.old.names place found.now.0) tables.old tables.new) }
{
    let kind = found.0.copy(alloc)?;
    tables.tell_type(place, kind);
    Ok(())
}

/// Tells what was found of a group.
pub fn tell(
    alloc: Global,
    tables: &mut NameTables,
    group: &Group<'_>,
    found: &(StType, i128),
) -> Result<(), NoMemory>
    ensures { OnOk result (Retold (with_jobs tables.old.names (jobs_of_group (group_of group.now)) found.now.0 found.now.1) tables.old tables.new) }
{
    match group {
        Group::Entry(place, _, _) => tell_type(alloc, tables, *place, found)?,
        Group::Interface(place, number, _) => {
            tables.tell_type(*place, StType::Interface(*number));
        }
        Group::Class(place, number, _) => tables.tell_type(*place, StType::Instance(*number)),
        Group::Globals(first, name) => {
            tell_globals(alloc, tables, *first, name.item.names.as_slice(), found)?;
        }
        Group::Members(class, first, name) => {
            let names = name.item.names.as_slice();
            tell_members(alloc, tables, *class, *first, names, found)?;
        }
    }
    Ok(())
}
