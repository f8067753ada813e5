//! The walk over an initial value and its type: in one pass the number of what it is worth.

ghost use Rattle.std.specs.Prelude.{◌≡◌, ℕ, suc, ◌<◌, ◌≤◌, List, length, map, get_or, slice_get, Some, None, option_map, IfOk, MatchOption};
ghost use Rattle.st_types.specs.declared.st_type.StType.TheVariants as kinds;
ghost use Rattle.st_tree.specs.Initial as plain;
ghost use Rattle.st_unit_rules.specs.Worth as spec;
ghost use Rattle.default_values.specs.initial_worths.Structures.{AreStructures, AreGroups, IsGroup, IsNamed};
ghost use Rattle.default_values.specs.initial_worths.Found.{Finds};
ghost use Rattle.default_values.specs.given_values.Lent.{lent};
ghost use Rattle.default_values.specs.given_values.Lists as lists;
ghost use Rattle.default_values.specs.initial_worths.Private.Puts.{Puts, PutsFound, FindsList, FindsNumber, MakesWhole};
ghost use Rattle.st_tree.specs.declared.declaration.TypeDecl.{TypeDecl as AnEntry};
ghost use Rattle.st_rules.specs.Scope.{Scope as AScope};

use crate::given_values::{count, fields_given, given_for, parts_given, rooms, used, value_of};
use crate::initial_worths::structures::{Group, Structure};
use crate::initial_worths::values::ConstantValues;
use crate::worth_numbers::{Listed, WorthNumbers};
use plc_text::NoMemory;
use st_tree::{FieldInit, Init, Name, Part};
use st_types::StType;
use std::alloc::Global;

/// The number that is given for an elementary type or an enumeration.
fn number_in<S: ConstantValues>(
    s: &S,
    kind: &StType,
    init: &Init<u32>,
) -> Result<Option<i128>, NoMemory>
    ensures { IfOk result (λ v. (unit : AScope) (entries : List (AnEntry ℕ)) → option_map spec.a_number v ≡ spec.number_worth unit entries (S.scope s.now) kind.now (Some (plain.initial_of init.now))) }
{
    match init {
        Init::Value(e) => {
            let value = s.told_value(kind, e)?;
            Ok(value)
        }
        Init::Array(_, _) => Ok(None),
        Init::Fields(_, _) => Ok(None),
    }
}

/// The same, and 0 where nothing is given.
fn number_given<S: ConstantValues>(
    s: &S,
    kind: &StType,
    given: Option<&Init<u32>>,
) -> Result<Option<i128>, NoMemory>
    ensures { IfOk result (λ v. (unit : AScope) (entries : List (AnEntry ℕ)) → option_map spec.a_number v ≡ spec.number_worth unit entries (S.scope s.now) kind.now (lent given.entry)) }
{
    match given {
        Some(init) => {
            let value = number_in(s, kind, init)?;
            Ok(value)
        }
        None => Ok(Some(0)),
    }
}

/// The worth of a number, if there is one.
fn number_of(table: &mut WorthNumbers, value: Option<i128>) -> Result<Option<u32>, NoMemory>
    ensures { IfOk result (λ r. FindsNumber table.old table.new value r) }
{
    match value {
        Some(value) => {
            let number = table.number(value)?;
            Ok(Some(number))
        }
        None => Ok(None),
    }
}

/// Of an elementary type or an enumeration.
fn weigh_number<S: ConstantValues>(
    table: &mut WorthNumbers,
    structures: &[Structure<'_>],
    s: &S,
    steps: u32,
    kind: &StType,
    given: Option<&Init<u32>>,
) -> Result<Option<u32>, NoMemory>
    ensures { IfOk result (λ r. Finds table.old table.new structures.now steps r (λ unit entries. spec.number_worth unit entries (S.scope s.now) kind.now (lent given.entry))) }
{
    let value = number_given(s, kind, given)?;
    let found = number_of(table, value)?;
    Ok(found)
}

/// The number of what an initial value is worth where a value of the type stands, or of what the type begins with where nothing is given;
/// none where that cannot be told within so many steps of containment, 66 at most.
#[cycle(weigh)]
pub fn weigh<S: ConstantValues>(
    alloc: Global,
    table: &mut WorthNumbers,
    structures: &[Structure<'_>],
    s: &S,
    steps: u32,
    kind: &StType,
    given: Option<&Init<u32>>,
) -> Result<Option<u32>, NoMemory>
    ensures { IfOk result (λ r. Finds table.old table.new structures.now steps r (λ unit entries. spec.worth_within unit entries steps (S.scope s.now) kind.now (lent given.entry))) }
{
    if steps == 0 {
        return Ok(None);
    }
    match kind {
        StType::Array(low, high, of) => {
            let room = count(low, high)?;
            let parts = parts_given(given);
            let found = weigh_array(
                alloc,
                table,
                structures,
                s,
                steps - 1,
                of.get(),
                room,
                parts,
            )?;
            Ok(found)
        }
        StType::Structure(number) => {
            let fields = fields_given(given);
            let found = weigh_structure(alloc, table, structures, s, steps - 1, *number, fields)?;
            Ok(found)
        }
        StType::Instance(_) => Ok(None),
        StType::Reference(_) => {
            let number = table.held()?;
            Ok(Some(number))
        }
        StType::Interface(_) => {
            let number = table.held()?;
            Ok(Some(number))
        }
        StType::Elementary(_) => {
            let found = weigh_number(table, structures, s, steps, kind, given)?;
            Ok(found)
        }
        StType::Enumeration(_) => {
            let found = weigh_number(table, structures, s, steps, kind, given)?;
            Ok(found)
        }
    }
}

/// Of an array with so many elements.
#[cycle(weigh)]
fn weigh_array<S: ConstantValues>(
    alloc: Global,
    table: &mut WorthNumbers,
    structures: &[Structure<'_>],
    s: &S,
    steps: u32,
    of: &StType,
    room: u128,
    parts: &[Part<u32>],
) -> Result<Option<u32>, NoMemory>
    ensures { IfOk result (λ r. Finds table.old table.new structures.now steps r (λ unit entries. option_map spec.some_parts (spec.elements_worth (spec.worth_within unit entries steps (S.scope s.now) of.now) room (spec.parts_listed (plain.parts_of parts.now))))) }
{
    let list = put_elements(alloc, table, structures, s, steps, of, room, parts)?;
    let found = whole_of(table, list)?;
    Ok(found)
}

/// A whole of these parts, if they can be told.
fn whole_of(table: &mut WorthNumbers, list: Option<Listed>) -> Result<Option<u32>, NoMemory>
    ensures { IfOk result (λ r. MakesWhole table.old table.new list r) }
{
    match list {
        Some(list) => {
            let number = table.whole(list)?;
            Ok(Some(number))
        }
        None => Ok(None),
    }
}

/// The elements of an array: what is given, and behind it what the type gives.
#[cycle(weigh)]
fn put_elements<S: ConstantValues>(
    alloc: Global,
    table: &mut WorthNumbers,
    structures: &[Structure<'_>],
    s: &S,
    steps: u32,
    of: &StType,
    room: u128,
    parts: &[Part<u32>],
) -> Result<Option<Listed>, NoMemory>
    ensures { IfOk result (λ r. FindsList table.old table.new structures.now steps r (λ unit entries. spec.elements_worth (spec.worth_within unit entries steps (S.scope s.now) of.now) room (spec.parts_listed (plain.parts_of parts.now)))) }
{
    let rooms = rooms(alloc, room, parts)?;
    let end = table.no_parts()?;
    let rest = room_at(&rooms, parts.len());
    let behind = put_many(alloc, table, structures, s, steps, of, rest, None, end)?;
    match behind {
        Some(behind) => {
            let list = put_parts(
                alloc, table, structures, s, steps, of, &rooms, parts, behind,
            )?;
            Ok(list)
        }
        None => Ok(None),
    }
}

fn room_at(rooms: &[u128], place: usize) -> u128
    ensures { result ≡ get_or rooms.now place 0 }
{
    match rooms.get(place) {
        Some(room) => *room,
        None => 0,
    }
}

/// The parts of a list before what is behind them.
#[cycle(weigh)]
fn put_parts<S: ConstantValues>(
    alloc: Global,
    table: &mut WorthNumbers,
    structures: &[Structure<'_>],
    s: &S,
    steps: u32,
    of: &StType,
    rooms: &[u128],
    parts: &[Part<u32>],
    behind: Listed,
) -> Result<Option<Listed>, NoMemory>
    ensures { IfOk result (λ r. (room : ℕ) → rooms.now ≡ lists.rooms room (map plain.part_of parts.now) → Puts table.old table.new (λ unit entries. AreStructures table.old unit entries steps structures.now × steps ≤ 66) behind r (λ unit entries o. lists.parts_worth (spec.worth_within unit entries steps (S.scope s.now) of.now) room (map plain.part_of parts.now) o)) }
{
    let mut list = behind;
    let mut left = parts;
    'parts: while let Some((part, before)) = left.split_last() {
        let times = used(part, room_at(rooms, before.len()));
        let value = Some(value_of(part));
        let put = put_many(alloc, table, structures, s, steps, of, times, value, list)?;
        match put {
            Some(longer) => list = longer,
            None => return Ok(None),
        }
        left = before;
    }
    Ok(Some(list))
}

/// So many elements or fields of a type, with the same value or with none, before what is behind them.
#[cycle(weigh)]
fn put_many<S: ConstantValues>(
    alloc: Global,
    table: &mut WorthNumbers,
    structures: &[Structure<'_>],
    s: &S,
    steps: u32,
    of: &StType,
    times: u128,
    given: Option<&Init<u32>>,
    behind: Listed,
) -> Result<Option<Listed>, NoMemory>
    ensures { IfOk result (λ r. Puts table.old table.new (λ unit entries. AreStructures table.old unit entries steps structures.now × steps ≤ 66) behind r (λ unit entries o. lists.repeat_before times (spec.worth_within unit entries steps (S.scope s.now) of.now (lent given.entry)) o)) }
{
    if times == 0 {
        return Ok(Some(behind));
    }
    let found = weigh(alloc, table, structures, s, steps, of, given)?;
    let list = put_found(table, times, found, behind)?;
    Ok(list)
}

/// So many of what is found, if it can be told.
fn put_found(
    table: &mut WorthNumbers,
    times: u128,
    found: Option<u32>,
    behind: Listed,
) -> Result<Option<Listed>, NoMemory>
    requires { 0 < times }
    ensures { IfOk result (λ r. PutsFound table.old table.new times found behind r) }
{
    match found {
        Some(number) => {
            let list = table.put_before(times, number, behind)?;
            Ok(Some(list))
        }
        None => Ok(None),
    }
}

fn structure_at<'s, 'a>(structures: &'s [Structure<'a>], number: u32) -> Option<&'s Structure<'a>>
    ensures { MatchOption result (slice_get structures.now number ≡ None) (λ x. slice_get structures.now number ≡ Some x.now) }
{
    structures.get(number as usize)
}

/// Of a structure; `steps` is one less than it may take.
#[cycle(weigh)]
fn weigh_structure<S: ConstantValues>(
    alloc: Global,
    table: &mut WorthNumbers,
    structures: &[Structure<'_>],
    s: &S,
    steps: u32,
    number: u32,
    fields: &[FieldInit<u32>],
) -> Result<Option<u32>, NoMemory>
    requires { steps < 4294967295 }
    ensures { IfOk result (λ r. Finds table.old table.new structures.now (suc steps) r (λ unit entries. spec.worth_within unit entries (suc steps) (S.scope s.now) (kinds.Structure number) (lists.fields_as fields.now))) }
{
    match structure_at(structures, number) {
        Some(structure) => {
            if structure.steps > steps + 1 {
                return Ok(None);
            }
            let end = table.no_parts()?;
            let groups = structure.groups.as_slice();
            let list = put_groups(alloc, table, structures, s, steps, groups, fields, end)?;
            let found = whole_of(table, list)?;
            Ok(found)
        }
        None => {
            let end = table.no_parts()?;
            let found = whole_of(table, Some(end))?;
            Ok(found)
        }
    }
}

/// The fields of a structure before what is behind them.
#[cycle(weigh)]
fn put_groups<S: ConstantValues>(
    alloc: Global,
    table: &mut WorthNumbers,
    structures: &[Structure<'_>],
    s: &S,
    steps: u32,
    groups: &[Group<'_>],
    fields: &[FieldInit<u32>],
    behind: Listed,
) -> Result<Option<Listed>, NoMemory>
    ensures { IfOk result (λ r. Puts table.old table.new (λ unit entries. AreStructures table.old unit entries steps structures.now × steps ≤ 66 × AreGroups table.old unit entries steps groups.now) behind r (λ unit entries o. lists.groups_behind unit entries (spec.worth_within unit entries steps) (S.scope s.now) (lists.fields_as fields.now) (map (λ g. g.declared.now) groups.now) o)) }
{
    let mut list = behind;
    let mut place = groups.len();
    while place > 0 {
        place -= 1;
        let put = put_group(
            alloc,
            table,
            structures,
            s,
            steps,
            &groups[place],
            fields,
            list,
        )?;
        match put {
            Some(longer) => list = longer,
            None => return Ok(None),
        }
    }
    Ok(Some(list))
}

/// The fields of a group before what is behind them.
#[cycle(weigh)]
fn put_group<S: ConstantValues>(
    alloc: Global,
    table: &mut WorthNumbers,
    structures: &[Structure<'_>],
    s: &S,
    steps: u32,
    group: &Group<'_>,
    fields: &[FieldInit<u32>],
    behind: Listed,
) -> Result<Option<Listed>, NoMemory>
    ensures { IfOk result (λ r. Puts table.old table.new (λ unit entries. AreStructures table.old unit entries steps structures.now × steps ≤ 66 × IsNamed table.old unit entries steps group.now) behind r (λ unit entries o. spec.names_worth unit entries (spec.worth_within unit entries steps) (S.scope s.now) (lists.fields_as fields.now) group.now.declared.now group.now.declared.now.names o)) }
{
    let names = group.declared.names.as_slice();
    let put = put_names(
        alloc, table, structures, s, steps, group, names, fields, behind,
    )?;
    Ok(put)
}

/// The fields of a group that have these names.
#[cycle(weigh)]
fn put_names<S: ConstantValues>(
    alloc: Global,
    table: &mut WorthNumbers,
    structures: &[Structure<'_>],
    s: &S,
    steps: u32,
    group: &Group<'_>,
    names: &[Name],
    fields: &[FieldInit<u32>],
    behind: Listed,
) -> Result<Option<Listed>, NoMemory>
    ensures { IfOk result (λ r. Puts table.old table.new (λ unit entries. AreStructures table.old unit entries steps structures.now × steps ≤ 66 × (0 < length names.now → IsGroup table.old unit entries steps group.now)) behind r (λ unit entries o. spec.names_worth unit entries (spec.worth_within unit entries steps) (S.scope s.now) (lists.fields_as fields.now) group.now.declared.now names.now o)) }
{
    let mut list = behind;
    let mut left = names;
    'names: while let Some((name, before)) = left.split_last() {
        let value = given_for(fields, &name.text);
        let put = put_field(alloc, table, structures, s, steps, group, value, list)?;
        match put {
            Some(longer) => list = longer,
            None => return Ok(None),
        }
        left = before;
    }
    Ok(Some(list))
}

/// A field with the value that is given for it, or with that of its declaration.
#[cycle(weigh)]
fn put_field<S: ConstantValues>(
    alloc: Global,
    table: &mut WorthNumbers,
    structures: &[Structure<'_>],
    s: &S,
    steps: u32,
    group: &Group<'_>,
    given: Option<&Init<u32>>,
    behind: Listed,
) -> Result<Option<Listed>, NoMemory>
    ensures { IfOk result (λ r. Puts table.old table.new (λ unit entries. AreStructures table.old unit entries steps structures.now × steps ≤ 66 × IsGroup table.old unit entries steps group.now) behind r (λ unit entries o. spec.worth_before (spec.field_worth unit entries (spec.worth_within unit entries steps) (S.scope s.now) group.now.declared.now (lent given.entry)) o)) }
{
    match given {
        Some(_) => {
            let list = put_given(alloc, table, structures, s, steps, group, given, behind)?;
            Ok(list)
        }
        None => {
            let list = put_found(table, 1, group.worth, behind)?;
            Ok(list)
        }
    }
}

/// A field with a value that is given for it.
#[cycle(weigh)]
fn put_given<S: ConstantValues>(
    alloc: Global,
    table: &mut WorthNumbers,
    structures: &[Structure<'_>],
    s: &S,
    steps: u32,
    group: &Group<'_>,
    given: Option<&Init<u32>>,
    behind: Listed,
) -> Result<Option<Listed>, NoMemory>
    ensures { IfOk result (λ r. Puts table.old table.new (λ unit entries. AreStructures table.old unit entries steps structures.now × steps ≤ 66 × IsGroup table.old unit entries steps group.now) behind r (λ unit entries o. spec.worth_before (spec.typed_worth unit entries (spec.worth_within unit entries steps) (S.scope s.now) group.now.kind (lent given.entry)) o)) }
{
    match &group.kind {
        Some(kind) => {
            let list = put_many(alloc, table, structures, s, steps, kind, 1, given, behind)?;
            Ok(list)
        }
        None => Ok(None),
    }
}
