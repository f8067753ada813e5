//! What can be told of a unit, in an order of need.

ghost use Rattle.std.specs.Prelude.{◌≡◌, ◌⊎◌, ℕ, Some, true, false, map, length, slice_get, IfOk, OnOk, MatchOption};
ghost use Rattle.resolution_order.specs.telling_groups.Arranged.{Arranges};
ghost use Rattle.resolution_order.specs.telling_groups.Groups.{group_of};
ghost use Rattle.resolution_order.specs.telling_groups.Private.Taken.{SameGroups, Taken, Takes, TakenTo};

use crate::telling_groups::groups::{Group, list_groups};
use crate::telling_groups::order::order_of_need;
use plc_text::NoMemory;
use st_tree::Decl;
use std::alloc::Global;

fn is_marked(marks: &[bool], place: usize) -> bool
    ensures { MatchOption (slice_get marks.now place) (result ≡ false) (λ m. result ≡ m) }
{
    match marks.get(place) {
        Some(mark) => *mark,
        None => false,
    }
}

fn mark(marks: &mut [bool], place: usize)
    ensures { (q : ℕ) → slice_get marks.new q ≡ Some true → (q ≡ place) ⊎ (slice_get marks.old q ≡ Some true) }
{
    if place < marks.len() {
        marks[place] = true;
    }
}

/// Takes the group at a place, if it was not taken before.
fn take<'a>(
    list: &mut Vec<Group<'a>>,
    marks: &mut [bool],
    groups: &[Group<'a>],
    place: usize,
) -> Result<(), NoMemory>
    requires { Taken (map group_of groups.now) (map group_of list.old.items) marks.old }
    ensures taken { OnOk result (Taken (map group_of groups.now) (map group_of list.new.items) marks.new) }
    ensures takes { OnOk result (Takes (map group_of groups.now) (map group_of list.old.items) (map group_of list.new.items) place) }
{
    if is_marked(marks, place) {
        return Ok(());
    }
    let Some(group) = groups.get(place) else {
        return Ok(());
    };
    list.push(*group)?;
    mark(marks, place);
    Ok(())
}

/// Takes the groups at these places.
fn take_each<'a>(
    list: &mut Vec<Group<'a>>,
    marks: &mut [bool],
    groups: &[Group<'a>],
    order: &[usize],
) -> Result<(), NoMemory>
    requires { Taken (map group_of groups.now) (map group_of list.old.items) marks.old }
    ensures { OnOk result (Taken (map group_of groups.now) (map group_of list.new.items) marks.new) }
{
    for place in order {
        take(list, marks, groups, *place)?;
    }
    Ok(())
}

/// Takes all groups that were not taken before.
fn take_all<'a>(
    list: &mut Vec<Group<'a>>,
    marks: &mut [bool],
    groups: &[Group<'a>],
) -> Result<(), NoMemory>
    requires { Taken (map group_of groups.now) (map group_of list.old.items) marks.old }
    ensures { OnOk result (TakenTo (map group_of groups.now) (map group_of list.new.items) marks.new (length groups.now)) }
{
    for place in 0..groups.len() {
        take(list, marks, groups, place)?;
    }
    Ok(())
}

/// The groups, those at these places first.
fn arrange<'a>(
    alloc: Global,
    groups: &[Group<'a>],
    order: &[usize],
) -> Result<Vec<Group<'a>>, NoMemory>
    ensures { IfOk result (λ list. SameGroups (map group_of groups.now) (map group_of list.items)) }
{
    let mut marks: Vec<bool> = vec![in alloc; false; groups.len()]?;
    let mut list = Vec::new(alloc);
    take_each(&mut list, &mut marks, groups, order)?;
    take_all(&mut list, &mut marks, groups)?;
    Ok(list)
}

/// All that can be told of a unit, in groups, each behind those that it needs, but on cycles. It takes time linear in the unit.
pub fn arrange_groups<'a>(alloc: Global, decls: &'a [Decl<u32>]) -> Result<Vec<Group<'a>>, NoMemory>
    ensures { IfOk result (λ list. Arranges decls.now (map group_of list.items)) }
{
    let groups = list_groups(alloc, decls)?;
    let order = order_of_need(alloc, &groups)?;
    let list = arrange(alloc, &groups, &order)?;
    Ok(list)
}
