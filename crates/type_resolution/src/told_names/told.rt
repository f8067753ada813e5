//! Rounds over what is left to be told, until one tells nothing more.

ghost use Rattle.std.specs.Prelude.{◌≡◌, map, length, IfOk, OnOk};
ghost use Rattle.st_rules.specs.Classes.{classes_in};
ghost use Rattle.name_resolution.specs.Tables.{Knows};
ghost use Rattle.resolution_order.specs.telling_groups.Arranged.{Arranges};
ghost use Rattle.resolution_order.specs.telling_groups.Groups.{group_of};
ghost use Rattle.type_resolution.specs.told_names.Private.State.{AreOfUnit, IsOfUnit, IsState, Keeps, Passes, Visits};
ghost use Rattle.type_resolution.specs.told_names.Told.{TellsAll};

use crate::told_names::found::found;
use crate::told_names::tell::tell;
use class_tables::ClassTables;
use declared_symbols::unit_untold::unit_untold;
use iface_tables::IfaceTables;
use name_resolution::NameTables;
use plc_text::NoMemory;
use resolution_order::telling_groups::{Group, arrange_groups};
use st_tree::Unit;
use std::alloc::Global;

/// Tells what can be told of a group; whether anything can.
fn visit(
    alloc: Global,
    tables: &mut NameTables,
    classes: &ClassTables,
    interfaces: &IfaceTables,
    group: &Group<'_>,
) -> Result<bool, NoMemory>
    requires same { interfaces.now ≡ classes.now }
    requires state { IsState classes.now.decls tables.old }
    requires group { IsOfUnit classes.now.decls (group_of group.now) }
    ensures { IfOk result (λ told. Visits classes.now.decls (group_of group.now) tables.old tables.new told) }
{
    let Some(found) = found(alloc, tables, classes, interfaces, group)? else {
        return Ok(false);
    };
    tell(alloc, tables, group, &found)?;
    Ok(true)
}

/// Tells what can be told of a group, or keeps it.
fn visit_or_keep<'a>(
    alloc: Global,
    tables: &mut NameTables,
    left: &mut Vec<Group<'a>>,
    classes: &ClassTables,
    interfaces: &IfaceTables,
    group: &Group<'a>,
) -> Result<(), NoMemory>
    requires same { interfaces.now ≡ classes.now }
    requires state { IsState classes.now.decls tables.old }
    requires group { IsOfUnit classes.now.decls (group_of group.now) }
    ensures { OnOk result (Keeps classes.now.decls (group_of group.now) tables.old tables.new (map group_of left.old.items) (map group_of left.new.items)) }
{
    if visit(alloc, tables, classes, interfaces, group)? {
        return Ok(());
    }
    left.push(*group)?;
    Ok(())
}

/// Tells what can be told of the groups; those of which nothing can be told.
fn pass<'a>(
    alloc: Global,
    tables: &mut NameTables,
    classes: &ClassTables,
    interfaces: &IfaceTables,
    groups: &[Group<'a>],
) -> Result<Vec<Group<'a>>, NoMemory>
    requires same { interfaces.now ≡ classes.now }
    requires state { IsState classes.now.decls tables.old }
    requires groups { AreOfUnit classes.now.decls (map group_of groups.now) }
    ensures { IfOk result (λ left. Passes classes.now.decls (map group_of groups.now) tables.old tables.new (map group_of left.items) (length groups.now)) }
{
    let mut left = Vec::new(alloc);
    for group in groups {
        visit_or_keep(alloc, tables, &mut left, classes, interfaces, group)?;
    }
    Ok(left)
}

/// Tells what can be told of the groups, in rounds over those that are left.
fn tell_groups(
    alloc: Global,
    tables: &mut NameTables,
    classes: &ClassTables,
    interfaces: &IfaceTables,
    groups: Vec<Group<'_>>,
) -> Result<(), NoMemory>
    requires same { interfaces.now ≡ classes.now }
    requires state { IsState classes.now.decls tables.old }
    requires groups { Arranges classes.now.decls (map group_of groups.items) }
    ensures state { OnOk result (IsState classes.now.decls tables.new) }
    ensures told { OnOk result (TellsAll classes.now.decls tables.new.names) }
{
    let mut groups = groups;
    'rounds: loop {
        let left = pass(alloc, tables, classes, interfaces, &groups)?;
        if left.len() >= groups.len() {
            return Ok(());
        }
        groups = left;
    }
}

/// Tables of all names of a unit in which all types of entries of TYPE and all constants are told that can be. They are told in an order of
/// need, of which nothing has to be known; then what is left, until a round tells nothing more. So it takes time linear in the unit where
/// the order is right, and each item is evaluated twice at most; that is so but where names are declared twice or a base has a depth that
/// breaks a rule.
pub fn tell_all(
    alloc: Global,
    unit: &Unit,
    classes: &ClassTables,
    interfaces: &IfaceTables,
) -> Result<NameTables, NoMemory>
    requires unit { classes.now ≡ unit.now }
    requires same { interfaces.now ≡ classes.now }
    ensures knows { IfOk result (λ t. Knows t (classes_in unit.now.decls)) }
    ensures told { IfOk result (λ t. TellsAll unit.now.decls t.names) }
{
    let untold = unit_untold(alloc, unit, classes)?;
    let mut tables = NameTables::build(alloc, unit, classes, untold)?;
    let groups = arrange_groups(alloc, unit.decls.as_slice())?;
    tell_groups(alloc, &mut tables, classes, interfaces, groups)?;
    Ok(tables)
}
