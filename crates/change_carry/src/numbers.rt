//! What numbers and places of enumerators get.

ghost use Rattle.std.specs.Prelude.{◌≡◌, Some};
ghost use Rattle.st_change.specs.Carry as words;
ghost use Rattle.st_values.specs.View.{texts};
ghost use Rattle.shape_trees.specs.Shape.{shape_of};
ghost use Rattle.value_trees.specs.Value.{value_of};
ghost use Rattle.change_carry.specs.Private.Numbers.{number_by};

use plc_text::Text;
use shape_trees::{Shape, same_elem, same_names};
use st_tree::Name;
use st_types::Elem;
use value_trees::Value;

/// The number that a value is, or else this one.
#[tactic(auto, using(value_trees::specs::Value::value_views))]
fn number_of(value: &Value, held: &i128) -> i128
    ensures { result ≡ words.number_of (value_of value.now) held.now }
{
    match value {
        Value::Number(n) => *n,
        Value::Reference(_) => *held,
        Value::Array(_, _) => *held,
        Value::Structure(_, _) => *held,
        Value::Instance(_, _) => *held,
    }
}

/// What a place of an elementary type gets.
#[tactic(auto, using(shape_trees::specs::Shape::shape_views))]
fn elementary_before(elem: Elem, old_shape: &Shape<'_>, old: &Value, held: &i128) -> i128
    ensures { result ≡ words.elementary_before elem (Some (shape_of old_shape.now, value_of old.now)) held.now }
{
    match old_shape {
        Shape::Elementary(other) => {
            if same_elem(elem, *other) {
                number_of(old, held)
            } else {
                *held
            }
        }
        Shape::Enumeration(_, _) => *held,
        Shape::Reference(_, _) => *held,
        Shape::Interface(_, _) => *held,
        Shape::Array(_, _, _) => *held,
        Shape::Structure(_, _, _) => *held,
        Shape::Instance(_, _, _) => *held,
    }
}

/// What a place of an enumeration gets.
#[tactic(auto, using(shape_trees::specs::Shape::shape_views))]
fn enumerator_before(
    name: &Text,
    values: &[Name],
    old_shape: &Shape<'_>,
    old: &Value,
    held: &i128,
) -> i128
    ensures { result ≡ words.enumerator_before name.now (texts values.now) (Some (shape_of old_shape.now, value_of old.now)) held.now }
{
    match old_shape {
        Shape::Enumeration(other, others) => {
            if **other == *name && same_names(others.as_slice(), values) {
                number_of(old, held)
            } else {
                *held
            }
        }
        Shape::Elementary(_) => *held,
        Shape::Reference(_, _) => *held,
        Shape::Interface(_, _) => *held,
        Shape::Array(_, _, _) => *held,
        Shape::Structure(_, _, _) => *held,
        Shape::Instance(_, _, _) => *held,
    }
}

/// What a place gets that holds a number.
#[tactic(auto, using(shape_trees::specs::Shape::shape_views))]
pub fn number_before(shape: &Shape<'_>, old_shape: &Shape<'_>, old: &Value, held: &i128) -> i128
    ensures { result ≡ number_by (shape_of shape.now) (shape_of old_shape.now) (value_of old.now) held.now }
{
    match shape {
        Shape::Elementary(elem) => elementary_before(*elem, old_shape, old, held),
        Shape::Enumeration(name, values) => {
            enumerator_before(name, values.as_slice(), old_shape, old, held)
        }
        Shape::Reference(_, _) => *held,
        Shape::Interface(_, _) => *held,
        Shape::Array(_, _, _) => *held,
        Shape::Structure(_, _, _) => *held,
        Shape::Instance(_, _, _) => *held,
    }
}
