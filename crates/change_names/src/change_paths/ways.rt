//! Steps as ways by name or by index, and ways as steps.

ghost use Rattle.std.specs.Prelude.{◌≡◌, true, option_map, slice_get};
ghost use Rattle.st_change.specs.From as words;
ghost use Rattle.shape_trees.specs.Numbers.{is_numbered};
ghost use Rattle.shape_trees.specs.Shape.{fields_of, shape_of};
ghost use Rattle.change_names.specs.change_paths.Change.{IsChange};
ghost use Rattle.change_names.specs.change_paths.Numbers.{found_at};
ghost use Rattle.change_names.specs.change_paths.Private.Programs.{program_at};
ghost use Rattle.change_names.specs.change_paths.Private.Walk.{number_in, way_is};

use crate::change_pairs::{Places, place_of};
use crate::change_paths::change::Change;
use crate::change_paths::which::{Which, numbers};
use plc_text::{Items, Text};
use shape_trees::{Field, Shape};
use st_tree::Step;

/// A way to a part of a value: by the name of a variable or field, or by an index.
#[derive(Clone, Copy)]
pub enum Way<'p> {
    Name(&'p Text),
    Index(i128),
}

/// The way to a field of this number.
fn way_to<'p>(fields: &Items<Field<'p>>, number: u32) -> Option<Way<'p>>
    ensures { option_map way_is result ≡ option_map words.by_name (words.field_name (fields_of fields.now) number) }
{
    match fields.get(number as usize) {
        Some(field) => Some(Way::Name(field.variable.name)),
        None => None,
    }
}

/// A step as a way.
#[tactic(auto, using(shape_trees::specs::Shape::shape_views))]
pub fn way_of<'p>(shape: &Shape<'p>, step: &Step) -> Option<Way<'p>>
    ensures { option_map way_is result ≡ words.way_of (shape_of shape.now) step.now }
{
    match shape {
        Shape::Array(_, _, _) => match step {
            Step::Element(index) => Some(Way::Index(*index)),
            Step::Field(_) => None,
        },
        Shape::Structure(_, _, fields) => match step {
            Step::Field(k) => way_to(fields, *k),
            Step::Element(_) => None,
        },
        Shape::Instance(_, _, fields) => match step {
            Step::Field(k) => way_to(fields, *k),
            Step::Element(_) => None,
        },
        Shape::Elementary(_) => None,
        Shape::Enumeration(_, _) => None,
        Shape::Reference(_, _) => None,
        Shape::Interface(_, _) => None,
    }
}

/// Where a name stands by the table of a number.
fn number_by(tables: &[Places], number: u32, name: &Text) -> Option<u32>
    ensures { result ≡ found_at (slice_get tables.now number) name.now }
{
    match tables.get(number as usize) {
        Some(table) => place_of(table, name),
        None => None,
    }
}

/// The number of the first field of a name.
#[tactic(auto, using(shape_trees::specs::Shape::shape_views))]
fn number_of(c: &Change<'_, '_>, of: Which, shape: &Shape<'_>, name: &Text) -> Option<u32>
    requires is_change { IsChange c.now }
    requires numbered { is_numbered (program_at c.now of) shape.now ≡ true }
    ensures { result ≡ number_in (shape_of shape.now) name.now }
{
    let numbers = numbers(c, of);
    match shape {
        Shape::Structure(n, _, _) => number_by(&numbers.structures, *n, name),
        Shape::Instance(k, _, _) => number_by(&numbers.classes, *k, name),
        Shape::Array(_, _, _) => None,
        Shape::Elementary(_) => None,
        Shape::Enumeration(_, _) => None,
        Shape::Reference(_, _) => None,
        Shape::Interface(_, _) => None,
    }
}

/// The step to the element of an index, where the shape is that of an array.
#[tactic(auto, using(shape_trees::specs::Shape::shape_views))]
fn index_step(shape: &Shape<'_>, index: i128) -> Option<Step>
    ensures { result ≡ words.step_of (shape_of shape.now) (words.by_index index) }
{
    match shape {
        Shape::Array(_, _, _) => Some(Step::Element(index)),
        Shape::Structure(_, _, _) => None,
        Shape::Instance(_, _, _) => None,
        Shape::Elementary(_) => None,
        Shape::Enumeration(_, _) => None,
        Shape::Reference(_, _) => None,
        Shape::Interface(_, _) => None,
    }
}

/// A way as a step.
pub fn step_of(c: &Change<'_, '_>, of: Which, shape: &Shape<'_>, way: &Way<'_>) -> Option<Step>
    requires is_change { IsChange c.now }
    requires numbered { is_numbered (program_at c.now of) shape.now ≡ true }
    ensures { result ≡ words.step_of (shape_of shape.now) (way_is way.now) }
{
    match way {
        Way::Index(index) => index_step(shape, *index),
        Way::Name(name) => match number_of(c, of, shape, name) {
            Some(k) => Some(Step::Field(k)),
            None => None,
        },
    }
}
