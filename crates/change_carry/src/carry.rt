//! What a place of a shape gets from the old value that it comes from.

ghost use Rattle.std.specs.Prelude.{◌≡◌, ◌&&◌, ◌||◌, not, OnOk, Some, length};
ghost use Rattle.st_change.specs.Carry as words;
ghost use Rattle.st_values.specs.View.{program_of};
ghost use Rattle.shape_trees.specs.Shape.{field_of, fields_of, shape_of};
ghost use Rattle.value_trees.specs.Value.{members_of, value_of, values_of};
ghost use Rattle.change_names.specs.change_paths.Change.{IsChange};
ghost use Rattle.change_carry.specs.Private.Carry.{carried, element_by, elements_by, elements_carried, instance_by, member_by, structure_by};
ghost use Rattle.change_carry.specs.Private.Parts.{ArePlacesOf, element_old, elements_of, part_named, parts_of};

use crate::numbers::number_before;
use crate::parts::{
    Elements, Parts, class_names, element_before, elements_before, field_places, fields_before,
    part_before, structure_names, variables_before,
};
use crate::references::reference_before;
use change_names::{Change, PairTable, Places};
use plc_text::{NoMemory, Series};
use shape_trees::{Field, Shape};
use std::mem;
use value_trees::{Member, Value};

/// Whether a variable with these marks keeps what is newly there.
pub fn stays(init_on_change: bool, no_copy: bool, keeping: bool) -> bool
    ensures { result ≡ (init_on_change || (no_copy && not keeping)) }
{
    init_on_change || (no_copy && !keeping)
}

/// Puts a value into the place that it was taken from.
fn put_back(held: &mut Value, value: Value)
    ensures { held.new ≡ value }
{
    *held = value;
}

/// A place gets what it comes from: numbers and references are written, all else stays.
#[cycle(carry)]
#[tactic(auto, using(value_trees::specs::Value::value_views))]
pub fn carry(
    shape: &Shape<'_>,
    c: &Change<'_, '_>,
    keeping: bool,
    old_shape: &Shape<'_>,
    old: &Value,
    held: &mut Value,
) -> Result<(), NoMemory>
    requires { IsChange c.now }
    ensures { OnOk result (value_of held.new ≡ words.carry (program_of c.now.old.program.now) (program_of c.now.new.program.now) keeping (shape_of shape.now) (Some (shape_of old_shape.now, value_of old.now)) (value_of held.old)) }
{
    match mem::replace(held, Value::Number(0)) {
        Value::Number(n) => {
            put_back(
                held,
                Value::Number(number_before(shape, old_shape, old, &n)),
            );
            Ok(())
        }
        Value::Reference(target) => {
            let target = reference_before(shape, c, old_shape, old, target)?;
            put_back(held, Value::Reference(target));
            Ok(())
        }
        Value::Array(low, mut items) => {
            let answer = carry_array(shape, c, keeping, old_shape, old, &mut items);
            put_back(held, Value::Array(low, items));
            answer
        }
        Value::Structure(name, mut members) => {
            let answer = carry_structure(shape, c, keeping, old_shape, old, &mut members);
            put_back(held, Value::Structure(name, members));
            answer
        }
        Value::Instance(name, mut members) => {
            let answer = carry_instance(shape, c, keeping, old_shape, old, &mut members);
            put_back(held, Value::Instance(name, members));
            answer
        }
    }
}

/// The elements of an array.
#[cycle(carry)]
#[tactic(auto, using(shape_trees::specs::Shape::shape_views))]
fn carry_array(
    shape: &Shape<'_>,
    c: &Change<'_, '_>,
    keeping: bool,
    old_shape: &Shape<'_>,
    old: &Value,
    items: &mut Series<Value>,
) -> Result<(), NoMemory>
    requires { IsChange c.now }
    ensures { OnOk result (values_of items.new ≡ elements_by (program_of c.now.old.program.now) (program_of c.now.new.program.now) keeping (shape_of shape.now) (shape_of old_shape.now) (value_of old.now) (values_of items.old)) }
{
    match shape {
        Shape::Array(low, _, of) => match elements_before(old_shape, old) {
            Some(before) => carry_items(of.get(), c, keeping, low, &before, items),
            None => Ok(()),
        },
        Shape::Elementary(_) => Ok(()),
        Shape::Enumeration(_, _) => Ok(()),
        Shape::Reference(_, _) => Ok(()),
        Shape::Interface(_, _) => Ok(()),
        Shape::Structure(_, _, _) => Ok(()),
        Shape::Instance(_, _, _) => Ok(()),
    }
}

/// Elements, the first of which has this index, get those of their indices.
#[cycle(carry)]
fn carry_items(
    of: &Shape<'_>,
    c: &Change<'_, '_>,
    keeping: bool,
    low: &i128,
    before: &Elements<'_, '_, '_>,
    items: &mut Series<Value>,
) -> Result<(), NoMemory>
    requires { IsChange c.now }
    ensures { OnOk result (values_of items.new ≡ elements_carried (program_of c.now.old.program.now) (program_of c.now.new.program.now) keeping (shape_of of.now) (elements_of before.now) low.now (values_of items.old)) }
{
    let mut index = *low;
    for k in 0..items.len() {
        carry_item(of, c, keeping, before, &index, items, k)?;
        let Some(next) = index.checked_add(1) else {
            return Err(NoMemory);
        };
        index = next;
    }
    Ok(())
}

/// The element at a place gets that of an index.
#[cycle(carry)]
fn carry_item(
    of: &Shape<'_>,
    c: &Change<'_, '_>,
    keeping: bool,
    before: &Elements<'_, '_, '_>,
    index: &i128,
    items: &mut Series<Value>,
    place: usize,
) -> Result<(), NoMemory>
    requires { IsChange c.now }
    ensures { OnOk result ((values_of items.new ≡ element_by place (words.carry (program_of c.now.old.program.now) (program_of c.now.new.program.now) keeping (shape_of of.now) (element_old (elements_of before.now) index.now)) (values_of items.old)) × (length items.new ≡ length items.old)) }
{
    let Some(old) = element_before(before, index) else {
        return Ok(());
    };
    match items.get_mut(place) {
        Some(held) => carry(of, c, keeping, before.shape, old, held),
        None => Ok(()),
    }
}

/// The fields of a structure.
#[cycle(carry)]
#[tactic(auto, using(shape_trees::specs::Shape::shape_views))]
fn carry_structure(
    shape: &Shape<'_>,
    c: &Change<'_, '_>,
    keeping: bool,
    old_shape: &Shape<'_>,
    old: &Value,
    members: &mut Series<Member>,
) -> Result<(), NoMemory>
    requires { IsChange c.now }
    ensures { OnOk result (members_of members.new ≡ structure_by (program_of c.now.old.program.now) (program_of c.now.new.program.now) keeping (shape_of shape.now) (shape_of old_shape.now) (value_of old.now) (members_of members.old)) }
{
    match shape {
        Shape::Structure(number, name, fields) => match fields_before(name, old_shape, old) {
            Some(before) => match structure_names(c, *number, name) {
                Some(names) => carry_parts(fields.as_slice(), c, keeping, names, &before, members),
                None => Err(NoMemory),
            },
            None => Ok(()),
        },
        Shape::Elementary(_) => Ok(()),
        Shape::Enumeration(_, _) => Ok(()),
        Shape::Reference(_, _) => Ok(()),
        Shape::Interface(_, _) => Ok(()),
        Shape::Array(_, _, _) => Ok(()),
        Shape::Instance(_, _, _) => Ok(()),
    }
}

/// The variables of an instance.
#[cycle(carry)]
#[tactic(auto, using(shape_trees::specs::Shape::shape_views))]
fn carry_instance(
    shape: &Shape<'_>,
    c: &Change<'_, '_>,
    keeping: bool,
    old_shape: &Shape<'_>,
    old: &Value,
    members: &mut Series<Member>,
) -> Result<(), NoMemory>
    requires { IsChange c.now }
    ensures { OnOk result (members_of members.new ≡ instance_by (program_of c.now.old.program.now) (program_of c.now.new.program.now) keeping (shape_of shape.now) (shape_of old_shape.now) (value_of old.now) (members_of members.old)) }
{
    match shape {
        Shape::Instance(class, name, variables) => match variables_before(name, old_shape, old) {
            Some(before) => match class_names(c, *class) {
                Some(names) => {
                    carry_parts(variables.as_slice(), c, keeping, names, &before, members)
                }
                None => Ok(()),
            },
            None => Ok(()),
        },
        Shape::Elementary(_) => Ok(()),
        Shape::Enumeration(_, _) => Ok(()),
        Shape::Reference(_, _) => Ok(()),
        Shape::Interface(_, _) => Ok(()),
        Shape::Array(_, _, _) => Ok(()),
        Shape::Structure(_, _, _) => Ok(()),
    }
}

/// Fields or variables get those of an old structure or instance that they come from.
#[cycle(carry)]
fn carry_parts(
    fields: &[Field<'_>],
    c: &Change<'_, '_>,
    keeping: bool,
    names: &PairTable<'_>,
    before: &Parts<'_, '_, '_>,
    members: &mut Series<Member>,
) -> Result<(), NoMemory>
    requires { IsChange c.now }
    ensures { OnOk result (members_of members.new ≡ words.carry_members (program_of c.now.old.program.now) (program_of c.now.new.program.now) keeping (fields_of fields.now) names.now (part_named (parts_of before.now)) (members_of members.old)) }
{
    let places = field_places(c.alloc, before.fields.as_slice())?;
    for (k, field) in fields.iter().enumerate() {
        carry_member(field, c, keeping, names, before, &places, members, k)?;
    }
    Ok(())
}

/// The member at a place gets what its field comes from.
#[cycle(carry)]
fn carry_member(
    field: &Field<'_>,
    c: &Change<'_, '_>,
    keeping: bool,
    names: &PairTable<'_>,
    before: &Parts<'_, '_, '_>,
    places: &Places,
    members: &mut Series<Member>,
    place: usize,
) -> Result<(), NoMemory>
    requires change { IsChange c.now }
    requires are_places { ArePlacesOf places.now (fields_of before.now.fields.now) }
    ensures { OnOk result (members_of members.new ≡ member_by place (carried (program_of c.now.old.program.now) (program_of c.now.new.program.now) keeping (field_of field.now) names.now (part_named (parts_of before.now))) (members_of members.old)) }
{
    let variable = &field.variable;
    if stays(variable.init_on_change, variable.no_copy, keeping) {
        return Ok(());
    }
    let Some(part) = part_before(names, before, places, variable.name) else {
        return Ok(());
    };
    match members.get_mut(place) {
        Some(member) => carry(
            &field.shape,
            c,
            keeping,
            part.shape,
            part.value,
            &mut member.value,
        ),
        None => Ok(()),
    }
}
