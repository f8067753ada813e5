//! Whether two shapes are equal, by names.

ghost use Rattle.std.specs.Prelude.{◌≡◌, ◌&&◌};
ghost use Rattle.plc_text.specs.Words.{same};
ghost use Rattle.st_values.specs.Shape as plain;
ghost use Rattle.st_values.specs.View.{texts};
ghost use Rattle.shape_trees.specs.Shape.{fields_of, shape_of};

use crate::shape::{Field, Shape};
use plc_text::Text;
use st_tree::Name;
use st_types::Elem;

/// Whether two elementary types have one name.
pub fn same_elem(a: Elem, b: Elem) -> bool
    ensures { result ≡ plain.same_elem a b }
{
    a.name() == b.name()
}

/// Whether two lists have the same names.
pub fn same_names(a: &[Name], b: &[Name]) -> bool
    ensures { result ≡ plain.same_names (texts a.now) (texts b.now) }
{
    let mut left = a;
    let mut right = b;
    'names: while let Some((name, behind)) = left.split_first() {
        let Some((other, others)) = right.split_first() else {
            return false;
        };
        if name.text != other.text {
            return false;
        }
        left = behind;
        right = others;
    }
    right.is_empty()
}

/// Whether a shape is that of an elementary type of one name.
#[tactic(auto, using(crate::specs::Shape::shape_views))]
fn is_elementary(elem: Elem, other: &Shape<'_>) -> bool
    ensures { result ≡ plain.same_shape (plain.Elementary elem) (shape_of other.now) }
{
    match other {
        Shape::Elementary(theirs) => same_elem(elem, *theirs),
        Shape::Enumeration(_, _) => false,
        Shape::Reference(_, _) => false,
        Shape::Interface(_, _) => false,
        Shape::Array(_, _, _) => false,
        Shape::Structure(_, _, _) => false,
        Shape::Instance(_, _, _) => false,
    }
}

/// Whether it is that of an enumeration of this name and list.
#[tactic(auto, using(crate::specs::Shape::shape_views))]
fn is_enumeration(name: &Text, values: &[Name], other: &Shape<'_>) -> bool
    ensures { result ≡ plain.same_shape (plain.Enumeration name.now (texts values.now)) (shape_of other.now) }
{
    match other {
        Shape::Enumeration(theirs, others) => *name == **theirs
            && same_names(values, others.as_slice()),
        Shape::Elementary(_) => false,
        Shape::Reference(_, _) => false,
        Shape::Interface(_, _) => false,
        Shape::Array(_, _, _) => false,
        Shape::Structure(_, _, _) => false,
        Shape::Instance(_, _, _) => false,
    }
}

/// Whether it is that of a reference to a class of this name.
#[tactic(auto, using(crate::specs::Shape::shape_views))]
fn is_reference(class: u32, name: &Text, other: &Shape<'_>) -> bool
    ensures { result ≡ plain.same_shape (plain.Reference class name.now) (shape_of other.now) }
{
    match other {
        Shape::Reference(_, theirs) => *name == **theirs,
        Shape::Elementary(_) => false,
        Shape::Enumeration(_, _) => false,
        Shape::Interface(_, _) => false,
        Shape::Array(_, _, _) => false,
        Shape::Structure(_, _, _) => false,
        Shape::Instance(_, _, _) => false,
    }
}

/// Whether it is that of an interface of this name.
#[tactic(auto, using(crate::specs::Shape::shape_views))]
fn is_interface(number: u32, name: &Text, other: &Shape<'_>) -> bool
    ensures { result ≡ plain.same_shape (plain.Interface number name.now) (shape_of other.now) }
{
    match other {
        Shape::Interface(_, theirs) => *name == **theirs,
        Shape::Elementary(_) => false,
        Shape::Enumeration(_, _) => false,
        Shape::Reference(_, _) => false,
        Shape::Array(_, _, _) => false,
        Shape::Structure(_, _, _) => false,
        Shape::Instance(_, _, _) => false,
    }
}

/// Whether two shapes are equal, by names: initial values, marks and numbers are no part of a shape.
#[cycle(same)]
#[tactic(auto, using(crate::specs::Shape::shape_views))]
pub fn same_shape(shape: &Shape<'_>, other: &Shape<'_>) -> bool
    ensures { result ≡ plain.same_shape (shape_of shape.now) (shape_of other.now) }
{
    match shape {
        Shape::Elementary(elem) => is_elementary(*elem, other),
        Shape::Enumeration(name, values) => is_enumeration(name, values.as_slice(), other),
        Shape::Reference(class, name) => is_reference(*class, name, other),
        Shape::Interface(number, name) => is_interface(*number, name, other),
        Shape::Array(low, count, element) => is_array(low, *count, element.get(), other),
        Shape::Structure(_, name, fields) => is_structure(name, fields.as_slice(), other),
        Shape::Instance(class, name, fields) => is_instance(*class, name, fields.as_slice(), other),
    }
}

/// Whether a shape is that of an array of so many elements of this shape from the least index on.
#[cycle(same)]
#[tactic(auto, using(crate::specs::Shape::shape_views))]
fn is_array(low: &i128, count: usize, element: &Shape<'_>, other: &Shape<'_>) -> bool
    ensures { result ≡ plain.same_shape (plain.Array low.now count (shape_of element.now)) (shape_of other.now) }
{
    match other {
        Shape::Array(from, many, theirs) => *low == *from
            && (count == *many && same_shape(element, theirs.get())),
        Shape::Elementary(_) => false,
        Shape::Enumeration(_, _) => false,
        Shape::Reference(_, _) => false,
        Shape::Interface(_, _) => false,
        Shape::Structure(_, _, _) => false,
        Shape::Instance(_, _, _) => false,
    }
}

/// Whether it is that of a structure of this name with such fields.
#[cycle(same)]
#[tactic(auto, using(crate::specs::Shape::shape_views))]
fn is_structure(name: &Text, fields: &[Field<'_>], other: &Shape<'_>) -> bool
    ensures { result ≡ plain.same_shape (plain.Structure name.now (fields_of fields.now)) (shape_of other.now) }
{
    match other {
        Shape::Structure(_, theirs, others) => *name == **theirs
            && same_fields(fields, others.as_slice()),
        Shape::Elementary(_) => false,
        Shape::Enumeration(_, _) => false,
        Shape::Reference(_, _) => false,
        Shape::Interface(_, _) => false,
        Shape::Array(_, _, _) => false,
        Shape::Instance(_, _, _) => false,
    }
}

/// Whether it is that of an instance of a class of this name with such variables.
#[cycle(same)]
#[tactic(auto, using(crate::specs::Shape::shape_views))]
fn is_instance(class: u32, name: &Text, fields: &[Field<'_>], other: &Shape<'_>) -> bool
    ensures { result ≡ plain.same_shape (plain.Instance class name.now (fields_of fields.now)) (shape_of other.now) }
{
    match other {
        Shape::Instance(_, theirs, others) => *name == **theirs
            && same_fields(fields, others.as_slice()),
        Shape::Elementary(_) => false,
        Shape::Enumeration(_, _) => false,
        Shape::Reference(_, _) => false,
        Shape::Interface(_, _) => false,
        Shape::Array(_, _, _) => false,
        Shape::Structure(_, _, _) => false,
    }
}

/// Whether two fields have one name and equal shapes.
#[cycle(same)]
fn same_field(a: &Field<'_>, b: &Field<'_>) -> bool
    ensures { result ≡ (same a.now.variable.name.now b.now.variable.name.now && plain.same_shape (shape_of a.now.shape) (shape_of b.now.shape)) }
{
    *a.variable.name == *b.variable.name && same_shape(&a.shape, &b.shape)
}

/// Whether two lists of fields have the same names and equal shapes.
#[cycle(same)]
fn same_fields(a: &[Field<'_>], b: &[Field<'_>]) -> bool
    ensures { result ≡ plain.same_fields (fields_of a.now) (fields_of b.now) }
{
    if a.len() != b.len() {
        return false;
    }
    for (k, field) in a.iter().enumerate() {
        if !same_field(field, &b[k]) {
            return false;
        }
    }
    true
}
