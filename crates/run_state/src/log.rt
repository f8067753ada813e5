//! What takes the writes of a cycle back: never much more than the regions hold.

ghost use Rattle.std.specs.Prelude.{◌≡◌, ◌≤◌, [], None, OnOk};
ghost use Rattle.value_trees.specs.Value.{value_of, members_of};
ghost use Rattle.run_state.specs.State.{before, undone, unwind};
ghost use Rattle.run_state.specs.Private.Log.{RegionPut};

use crate::copies::copy_store;
use crate::state::{Log, Undo};
use plc_text::{NoMemory, Series};
use st_tree::Path;
use std::alloc::Global;
use value_trees::{Member, Value, copy_path, exchange_at};

/// What is left of a room behind a value, which takes one, and one more for each value in it.
#[cycle(room)]
fn room_behind(value: &Value, room: usize) -> usize
    ensures { result ≤ room }
{
    if room == 0 {
        return 0;
    }
    match value {
        Value::Number(_) => room.saturating_sub(1),
        Value::Reference(_) => room.saturating_sub(1),
        Value::Array(_, items) => room_behind_items(items.as_slice(), room.saturating_sub(1)),
        Value::Structure(_, members) => {
            room_behind_members(members.as_slice(), room.saturating_sub(1))
        }
        Value::Instance(_, members) => {
            room_behind_members(members.as_slice(), room.saturating_sub(1))
        }
    }
}

#[cycle(room)]
fn room_behind_items(items: &[Value], room: usize) -> usize
    ensures { result ≤ room }
{
    let mut left = room;
    for item in items {
        if left == 0 {
            return 0;
        }
        left = room_behind(item, left);
    }
    left
}

#[cycle(room)]
fn room_behind_members(members: &[Member], room: usize) -> usize
    ensures { result ≤ room }
{
    let mut left = room;
    for member in members {
        if left == 0 {
            return 0;
        }
        left = room_behind(&member.value, left);
    }
    left
}

/// Puts a value into a region, and gives back what stood there.
pub fn put_region(store: &mut Series<Member>, path: &Path, new: Value) -> Option<Value>
    ensures { RegionPut result (members_of store.old) path.now (value_of new) (members_of store.new) }
{
    match store.get_mut(path.region as usize) {
        Some(member) => match exchange_at(&mut member.value, path.steps.as_slice(), new) {
            Ok(old) => Some(old),
            Err(_) => None,
        },
        None => None,
    }
}

/// Puts back what was replaced.
fn restore(store: &mut Series<Member>, undo: Undo)
    ensures { members_of store.new ≡ undone undo (members_of store.old) }
{
    let Undo { path, old } = undo;
    let _ = put_region(store, &path, old);
}

/// Puts back what was replaced, the last first.
pub fn take_back(store: &mut Series<Member>, replaced: &mut Series<Undo>)
    ensures store { members_of store.new ≡ unwind replaced.old (members_of store.old) }
    ensures replaced { replaced.new ≡ [] }
{
    while let Some(last) = replaced.pop() {
        restore(store, last);
    }
}

/// Keeps the regions as they were in the place of what was replaced, unless they hold more values than that.
fn shorten(alloc: Global, log: &mut Log, store: &Series<Member>) -> Result<(), NoMemory>
    requires { log.old.whole ≡ None }
    ensures { OnOk result (before log.new (members_of store.now) ≡ before log.old (members_of store.now)) }
{
    if room_behind_members(store.as_slice(), log.limit) == 0 {
        log.room = log.limit;
        log.limit = log.limit.saturating_mul(2);
        return Ok(());
    }
    let mut whole = copy_store(alloc, store)?;
    take_back(&mut whole, &mut log.replaced);
    log.whole = Some(whole);
    Ok(())
}

/// Keeps what a write replaced in these regions.
fn keep(
    alloc: Global,
    log: &mut Log,
    store: &Series<Member>,
    path: &Path,
    old: Value,
) -> Result<(), NoMemory>
    requires { log.old.whole ≡ None }
    ensures { OnOk result (before log.new (members_of store.now) ≡ before log.old (undone (record { path = path.now; old = old }) (members_of store.now))) }
{
    log.room = room_behind(&old, log.room);
    let path = copy_path(alloc, path)?;
    log.replaced.push(Undo { path, old })?;
    if log.room > 0 {
        return Ok(());
    }
    shorten(alloc, log, store)
}

/// Remembers what a write replaced in these regions, unless all that they held is known.
pub fn remember(
    alloc: Global,
    log: &mut Log,
    store: &Series<Member>,
    path: &Path,
    old: Value,
) -> Result<(), NoMemory>
    ensures { OnOk result (before log.new (members_of store.now) ≡ before log.old (undone (record { path = path.now; old = old }) (members_of store.now))) }
{
    if log.whole.is_some() {
        return Ok(());
    }
    keep(alloc, log, store, path, old)
}
