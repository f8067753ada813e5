//! Parts of shapes.

ghost use Rattle.std.specs.Prelude.{◌≡◌, true, option_map};
ghost use Rattle.st_values.specs.Program.{Program};
ghost use Rattle.st_values.specs.Shape as plain;
ghost use Rattle.st_values.specs.Value.{place_of_index};
ghost use Rattle.shape_trees.specs.Numbers.{are_numbered, is_numbered, is_numbered_at};
ghost use Rattle.shape_trees.specs.Private.Places.{has_place};
ghost use Rattle.shape_trees.specs.Shape.{fields_of, shape_of};

use crate::shape::{Field, Shape};
use plc_text::Items;
use st_tree::Step;

/// The shape of the field or variable of this number.
fn field<'a, 'p>(fields: &'a Items<Field<'p>>, number: u32) -> Option<&'a Shape<'p>>
    ensures field { option_map (λ sh. shape_of sh.now) result ≡ plain.field (fields_of fields.now) number }
    ensures numbered { (p : Program) → are_numbered p fields.now ≡ true → is_numbered_at p (option_map (λ sh. sh.now) result) ≡ true }
{
    match fields.get(number as usize) {
        Some(field) => Some(&field.shape),
        None => None,
    }
}

/// Whether an array of so many elements from the least index on has one of this index.
fn has_index(low: &i128, index: &i128, count: usize) -> bool
    ensures { result ≡ has_place (place_of_index low.now index.now) count }
{
    if *index < *low {
        return false;
    }
    match index.checked_sub(*low) {
        Some(offset) => offset < count as i128,
        None => false,
    }
}

/// The part of a shape to which a step leads.
#[tactic(auto, using(crate::specs::Shape::shape_views))]
pub fn part<'a, 'p>(shape: &'a Shape<'p>, step: &Step) -> Option<&'a Shape<'p>>
    ensures part { option_map (λ sh. shape_of sh.now) result ≡ plain.shape_part (shape_of shape.now) step.now }
    ensures numbered { (p : Program) → is_numbered p shape.now ≡ true → is_numbered_at p (option_map (λ sh. sh.now) result) ≡ true }
{
    match shape {
        Shape::Array(low, count, element) => match step {
            Step::Element(index) => {
                if has_index(low, index, *count) {
                    Some(element.get())
                } else {
                    None
                }
            }
            Step::Field(_) => None,
        },
        Shape::Structure(_, _, fields) => match step {
            Step::Field(k) => field(fields, *k),
            Step::Element(_) => None,
        },
        Shape::Instance(_, _, fields) => match step {
            Step::Field(k) => field(fields, *k),
            Step::Element(_) => None,
        },
        Shape::Elementary(_) => None,
        Shape::Enumeration(_, _) => None,
        Shape::Reference(_, _) => None,
        Shape::Interface(_, _) => None,
    }
}

/// The shape of what these steps lead to; None where they do not lead through the shape.
pub fn shape_at<'a, 'p>(shape: &'a Shape<'p>, steps: &[Step]) -> Option<&'a Shape<'p>>
    ensures { option_map (λ sh. shape_of sh.now) result ≡ plain.shape_at (shape_of shape.now) steps.now }
{
    match steps {
        [] => Some(shape),
        [step, rest @ ..] => match part(shape, step) {
            Some(inner) => shape_at(inner, rest),
            None => None,
        },
    }
}
