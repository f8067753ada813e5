//! Whether a shape contains an instance.

ghost use Rattle.std.specs.Prelude.{◌≡◌};
ghost use Rattle.st_values.specs.Shape as plain;
ghost use Rattle.shape_trees.specs.Shape.{fields_of, shape_of};

use crate::shape::{Field, Shape};

/// Whether a shape is that of an instance or contains one.
#[cycle(instances)]
#[tactic(auto, using(crate::specs::Shape::shape_views))]
pub fn has_instance(shape: &Shape<'_>) -> bool
    ensures { result ≡ plain.has_instance (shape_of shape.now) }
{
    match shape {
        Shape::Elementary(_) => false,
        Shape::Enumeration(_, _) => false,
        Shape::Reference(_, _) => false,
        Shape::Interface(_, _) => false,
        Shape::Array(_, _, element) => has_instance(element.get()),
        Shape::Structure(_, _, fields) => a_field_has_instance(fields.as_slice()),
        Shape::Instance(_, _, _) => true,
    }
}

/// Whether the shape of a field contains an instance.
#[cycle(instances)]
#[tactic(auto, using(crate::specs::Shape::shape_views))]
fn a_field_has_instance(fields: &[Field<'_>]) -> bool
    ensures { result ≡ plain.a_field_has_instance (fields_of fields.now) }
{
    for field in fields {
        if has_instance(&field.shape) {
            return true;
        }
    }
    false
}
