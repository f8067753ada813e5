//! The parts of old values: elements by their indices, variables and fields by their names.

ghost use Rattle.std.specs.Prelude.{◌≡◌, ◌≤◌, ℕ, IfOk, IfSome, MatchOption, None, Some, option_and_then, option_map, slice_get};
ghost use Rattle.st_change.specs.From as from;
ghost use Rattle.st_change.specs.Carry as words;
ghost use Rattle.st_values.specs.Value as plain;
ghost use Rattle.st_values.specs.View.{program_of};
ghost use Rattle.shape_trees.specs.Shape.{fields_of, shape_of};
ghost use Rattle.value_trees.specs.Value.{members_of, value_of, values_of};
ghost use Rattle.change_names.specs.change_pairs.Places.{found_in};
ghost use Rattle.change_names.specs.Pairs.{or_none};
ghost use Rattle.change_names.specs.change_paths.Change.{IsChange};
ghost use Rattle.change_carry.specs.Private.Parts.{ArePlacesOf, array_values, element_at, elements_in, elements_of, instance_members, instance_parts, part_in, part_named, part_of, parts_of, structure_members, structure_parts};

use change_names::{Change, PairTable, Places, place_of, put_name};
use plc_text::{Items, NoMemory, Series, Text};
use shape_trees::{Field, Shape};
use std::alloc::Global;
use std::collections::HashMap;
use value_trees::{Member, Value};

/// The elements of an old array: the least index, their shape, and what they are.
#[derive(Clone, Copy)]
pub struct Elements<'s, 'p, 'v> {
    pub low: i128,
    pub shape: &'s Shape<'p>,
    pub values: &'v Series<Value>,
}

/// The variables of an old instance or the fields of an old structure, and what they are.
#[derive(Clone, Copy)]
pub struct Parts<'s, 'p, 'v> {
    pub fields: &'s Items<Field<'p>>,
    pub members: &'v Series<Member>,
}

/// One of them.
#[derive(Clone, Copy)]
pub struct Part<'s, 'p, 'v> {
    pub shape: &'s Shape<'p>,
    pub value: &'v Value,
}

/// The elements of an array.
#[tactic(auto, using(value_trees::specs::Value::value_views))]
fn values_in(value: &Value) -> Option<&Series<Value>>
    ensures { option_map (λ vs. values_of vs.now) result ≡ array_values (value_of value.now) }
{
    match value {
        Value::Array(_, values) => Some(values),
        Value::Number(_) => None,
        Value::Reference(_) => None,
        Value::Structure(_, _) => None,
        Value::Instance(_, _) => None,
    }
}

/// The fields of a structure.
#[tactic(auto, using(value_trees::specs::Value::value_views))]
fn fields_in(value: &Value) -> Option<&Series<Member>>
    ensures { option_map (λ ms. members_of ms.now) result ≡ structure_members (value_of value.now) }
{
    match value {
        Value::Structure(_, members) => Some(members),
        Value::Number(_) => None,
        Value::Reference(_) => None,
        Value::Array(_, _) => None,
        Value::Instance(_, _) => None,
    }
}

/// The variables of an instance.
#[tactic(auto, using(value_trees::specs::Value::value_views))]
fn variables_in(value: &Value) -> Option<&Series<Member>>
    ensures { option_map (λ ms. members_of ms.now) result ≡ instance_members (value_of value.now) }
{
    match value {
        Value::Instance(_, members) => Some(members),
        Value::Number(_) => None,
        Value::Reference(_) => None,
        Value::Array(_, _) => None,
        Value::Structure(_, _) => None,
    }
}

/// The elements of an old value, where it is an array.
#[tactic(auto, using(shape_trees::specs::Shape::shape_views))]
pub fn elements_before<'s, 'p, 'v>(
    old_shape: &'s Shape<'p>,
    old: &'v Value,
) -> Option<Elements<'s, 'p, 'v>>
    ensures { option_map elements_of result ≡ elements_in (shape_of old_shape.now) (value_of old.now) }
{
    match old_shape {
        Shape::Array(low, _, of) => match values_in(old) {
            Some(values) => Some(Elements {
                low: *low,
                shape: of.get(),
                values,
            }),
            None => None,
        },
        Shape::Elementary(_) => None,
        Shape::Enumeration(_, _) => None,
        Shape::Reference(_, _) => None,
        Shape::Interface(_, _) => None,
        Shape::Structure(_, _, _) => None,
        Shape::Instance(_, _, _) => None,
    }
}

/// The fields of an old value, where it is a structure of this name.
#[tactic(auto, using(shape_trees::specs::Shape::shape_views))]
pub fn fields_before<'s, 'p, 'v>(
    name: &Text,
    old_shape: &'s Shape<'p>,
    old: &'v Value,
) -> Option<Parts<'s, 'p, 'v>>
    ensures { option_map parts_of result ≡ structure_parts name.now (shape_of old_shape.now) (value_of old.now) }
{
    match old_shape {
        Shape::Structure(_, other, fields) => {
            if **other != *name {
                return None;
            }
            match fields_in(old) {
                Some(members) => Some(Parts { fields, members }),
                None => None,
            }
        }
        Shape::Elementary(_) => None,
        Shape::Enumeration(_, _) => None,
        Shape::Reference(_, _) => None,
        Shape::Interface(_, _) => None,
        Shape::Array(_, _, _) => None,
        Shape::Instance(_, _, _) => None,
    }
}

/// The variables of an old value, where it is an instance of a class of this name.
#[tactic(auto, using(shape_trees::specs::Shape::shape_views))]
pub fn variables_before<'s, 'p, 'v>(
    name: &Text,
    old_shape: &'s Shape<'p>,
    old: &'v Value,
) -> Option<Parts<'s, 'p, 'v>>
    ensures { option_map parts_of result ≡ instance_parts name.now (shape_of old_shape.now) (value_of old.now) }
{
    match old_shape {
        Shape::Instance(_, other, variables) => {
            if **other != *name {
                return None;
            }
            match variables_in(old) {
                Some(members) => Some(Parts {
                    fields: variables,
                    members,
                }),
                None => None,
            }
        }
        Shape::Elementary(_) => None,
        Shape::Enumeration(_, _) => None,
        Shape::Reference(_, _) => None,
        Shape::Interface(_, _) => None,
        Shape::Array(_, _, _) => None,
        Shape::Structure(_, _, _) => None,
    }
}

/// Which element of so many has this index, where the least one is `low`.
fn place_of_index(low: &i128, index: &i128, count: usize) -> Option<usize>
    ensures { MatchOption result ((k : ℕ) → plain.place_of_index low.now index.now ≡ Some k → count ≤ k) (λ k. plain.place_of_index low.now index.now ≡ Some k) }
{
    if *index < *low {
        return None;
    }
    let Some(offset) = index.checked_sub(*low) else {
        return None;
    };
    if offset >= count as i128 {
        return None;
    }
    Some(offset as usize)
}

/// The element of this index.
pub fn element_before<'v>(before: &Elements<'_, '_, 'v>, index: &i128) -> Option<&'v Value>
    ensures { option_map (λ w. value_of w.now) result ≡ element_at (elements_of before.now) index.now }
{
    match place_of_index(&before.low, index, before.values.len()) {
        Some(place) => before.values.get(place),
        None => None,
    }
}

/// Where the first field of each name stands.
pub fn field_places(alloc: Global, fields: &[Field<'_>]) -> Result<Places, NoMemory>
    ensures { IfOk result (λ table. ArePlacesOf table (fields_of fields.now)) }
{
    let mut table: Places = HashMap::new(alloc);
    let mut i = fields.len();
    'fields: while i > 0 {
        i -= 1;
        put_name(alloc, &mut table, fields[i].variable.name, i)?;
    }
    Ok(table)
}

/// Where the old field stands that one of this name comes from.
fn place_before(names: &PairTable<'_>, places: &Places, name: &Text) -> Option<u32>
    ensures { result ≡ option_and_then (found_in places.now) (from.old_name names.now name.now) }
{
    match names.old_name(name) {
        Some(old) => place_of(places, old),
        None => None,
    }
}

/// The part of a number, where there are so many fields and members.
fn part_at<'s, 'p, 'v>(parts: &Parts<'s, 'p, 'v>, place: u32) -> Option<Part<'s, 'p, 'v>>
    ensures { option_map part_of result ≡ part_in (fields_of parts.now.fields.now) (members_of parts.now.members.now) place }
{
    let place = place as usize;
    let Some(field) = parts.fields.get(place) else {
        return None;
    };
    let Some(member) = parts.members.get(place) else {
        return None;
    };
    Some(Part {
        shape: &field.shape,
        value: &member.value,
    })
}

/// The old part that a field of this name comes from.
pub fn part_before<'s, 'p, 'v>(
    names: &PairTable<'_>,
    parts: &Parts<'s, 'p, 'v>,
    places: &Places,
    name: &Text,
) -> Option<Part<'s, 'p, 'v>>
    requires { ArePlacesOf places.now (fields_of parts.now.fields.now) }
    ensures { option_map part_of result ≡ words.before_by (part_named (parts_of parts.now)) (from.old_name names.now name.now) }
{
    match place_before(names, places, name) {
        Some(place) => part_at(parts, place),
        None => None,
    }
}

/// The table of a number in a list.
fn table_at<'a, 'p>(tables: &'a [PairTable<'p>], number: u32) -> Option<&'a PairTable<'p>>
    ensures { MatchOption result (slice_get tables.now number ≡ None) (λ t. slice_get tables.now number ≡ Some t.now) }
{
    tables.get(number as usize)
}

/// The fields of the new structure of this number with their old names, where it has this name.
pub fn structure_names<'a, 'p>(
    c: &'a Change<'p, '_>,
    number: u32,
    name: &Text,
) -> Option<&'a PairTable<'p>>
    requires { IsChange c.now }
    ensures { IfSome result (λ t. t.now ≡ from.structure_pairs (program_of c.now.old.program.now) (program_of c.now.new.program.now) name.now) }
{
    let Some(decl) = c.new.program.types.get(number as usize) else {
        return None;
    };
    if decl.name.text != *name {
        return None;
    }
    table_at(&c.names.structures, number)
}

/// The variables of the new class of this number with their old names.
pub fn class_names<'a, 'p>(c: &'a Change<'p, '_>, class: u32) -> Option<&'a PairTable<'p>>
    requires { IsChange c.now }
    ensures { or_none (option_map (λ t. t.now) result) ≡ from.class_pairs (program_of c.now.old.program.now) (program_of c.now.new.program.now) class }
{
    c.names.classes.get(class as usize)
}
