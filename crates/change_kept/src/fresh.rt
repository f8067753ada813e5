//! Whether a shape holds instances that are made anew at each change.

ghost use Rattle.std.specs.Prelude.{◌≡◌, ◌&&◌, ◌||◌, Some};
ghost use Rattle.st_change.specs.Counterpart as words;
ghost use Rattle.st_values.specs.Shape as plain;
ghost use Rattle.shape_trees.specs.Shape.{fields_of, shape_of};

use shape_trees::{Field, Shape, has_instance};

/// Whether a variable that is initialised at each change, and whose shape contains an instance, lies in a shape.
#[cycle(fresh)]
#[tactic(auto, using(shape_trees::specs::Shape::shape_views))]
fn has_fresh(shape: &Shape<'_>) -> bool
    ensures { result ≡ words.has_fresh (shape_of shape.now) }
{
    match shape {
        Shape::Elementary(_) => false,
        Shape::Enumeration(_, _) => false,
        Shape::Reference(_, _) => false,
        Shape::Interface(_, _) => false,
        Shape::Array(_, _, element) => has_fresh(element.get()),
        Shape::Structure(_, _, fields) => a_field_is_fresh(fields.as_slice()),
        Shape::Instance(_, _, fields) => a_field_is_fresh(fields.as_slice()),
    }
}

/// Whether one of these fields is such a variable, or holds one.
#[cycle(fresh)]
fn a_field_is_fresh(fields: &[Field<'_>]) -> bool
    ensures { result ≡ words.a_field_is_fresh (fields_of fields.now) }
{
    for field in fields {
        if is_anew(field) {
            return true;
        }
        if has_fresh(&field.shape) {
            return true;
        }
    }
    false
}

/// Whether a field is initialised at each change and contains an instance.
fn is_anew(field: &Field<'_>) -> bool
    ensures { result ≡ (field.now.variable.init_on_change && plain.has_instance (shape_of field.now.shape)) }
{
    if field.variable.init_on_change {
        return has_instance(&field.shape);
    }
    false
}

/// Whether a variable of a shape, initialised at each change or not, contains an instance that is made anew.
pub fn is_made_anew(shape: &Shape<'_>, init_on_change: bool) -> bool
    ensures { result ≡ ((init_on_change && plain.has_instance (shape_of shape.now)) || words.has_fresh (shape_of shape.now)) }
{
    if init_on_change && has_instance(shape) {
        return true;
    }
    has_fresh(shape)
}
