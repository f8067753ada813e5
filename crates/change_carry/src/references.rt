//! What references and interface values get.

ghost use Rattle.std.specs.Prelude.{◌≡◌, IfOk, Some, option_map};
ghost use Rattle.st_change.specs.Carry as words;
ghost use Rattle.st_values.specs.Shape.{path_shape};
ghost use Rattle.st_values.specs.View.{program_of};
ghost use Rattle.shape_trees.specs.Shape.{shape_of};
ghost use Rattle.value_trees.specs.Value.{value_of};
ghost use Rattle.change_names.specs.change_paths.Change.{IsChange};
ghost use Rattle.change_carry.specs.Private.References.{reference_by, reference_from, value_relocated};

use change_names::{Change, new_path};
use plc_text::NoMemory;
use shape_trees::{Shape, region_shape, shape_at};
use st_tree::Path;
use st_types::StType;
use value_trees::Value;

/// Whether a shape is that of an instance that conforms to a type of the new program.
#[tactic(auto, using(shape_trees::specs::Shape::shape_views))]
fn is_conforming(c: &Change<'_, '_>, kind: &StType, shape: &Shape<'_>) -> bool
    requires { IsChange c.now }
    ensures { result ≡ words.shape_conforms (program_of c.now.new.program.now) kind.now (Some (shape_of shape.now)) }
{
    match shape {
        Shape::Instance(class, _, _) => c.new.tables.conforms(*class, kind),
        Shape::Elementary(_) => false,
        Shape::Enumeration(_, _) => false,
        Shape::Reference(_, _) => false,
        Shape::Interface(_, _) => false,
        Shape::Array(_, _, _) => false,
        Shape::Structure(_, _, _) => false,
    }
}

/// The shape of what a path of the new program leads to.
fn new_shape<'a, 'p>(c: &'a Change<'_, 'p>, path: &Path) -> Option<&'a Shape<'p>>
    requires { IsChange c.now }
    ensures { option_map (λ s. shape_of s.now) result ≡ path_shape (program_of c.now.new.program.now) path.now }
{
    match region_shape(c.new_shapes, path.region) {
        Some(shape) => shape_at(shape, path.steps.as_slice()),
        None => None,
    }
}

/// Whether a path of the new program leads to an instance that conforms to a type.
fn leads_to(c: &Change<'_, '_>, kind: &StType, path: &Path) -> bool
    requires { IsChange c.now }
    ensures { result ≡ words.shape_conforms (program_of c.now.new.program.now) kind.now (path_shape (program_of c.now.new.program.now) path.now) }
{
    match new_shape(c, path) {
        Some(shape) => is_conforming(c, kind, shape),
        None => false,
    }
}

/// Where what an old path leads to stands in the new program, if it conforms to a type there.
fn relocated(c: &Change<'_, '_>, kind: &StType, path: &Path) -> Result<Option<Path>, NoMemory>
    requires { IsChange c.now }
    ensures { IfOk result (λ q. q ≡ words.relocated (program_of c.now.old.program.now) (program_of c.now.new.program.now) kind.now (Some path.now)) }
{
    let Some(path) = new_path(c, path)? else {
        return Ok(None);
    };
    if leads_to(c, kind, &path) {
        Ok(Some(path))
    } else {
        Ok(None)
    }
}

/// The same, where there is a path.
fn relocated_target(
    c: &Change<'_, '_>,
    kind: &StType,
    target: &Option<Path>,
) -> Result<Option<Path>, NoMemory>
    requires { IsChange c.now }
    ensures { IfOk result (λ q. q ≡ words.relocated (program_of c.now.old.program.now) (program_of c.now.new.program.now) kind.now target.now) }
{
    match target {
        Some(path) => relocated(c, kind, path),
        None => Ok(None),
    }
}

/// The same of a value that may be a reference.
#[tactic(auto, using(value_trees::specs::Value::value_views))]
fn relocated_value(c: &Change<'_, '_>, kind: &StType, old: &Value) -> Result<Option<Path>, NoMemory>
    requires { IsChange c.now }
    ensures { IfOk result (λ q. q ≡ value_relocated (program_of c.now.old.program.now) (program_of c.now.new.program.now) kind.now (value_of old.now)) }
{
    match old {
        Value::Reference(target) => relocated_target(c, kind, target),
        Value::Number(_) => Ok(None),
        Value::Array(_, _) => Ok(None),
        Value::Structure(_, _) => Ok(None),
        Value::Instance(_, _) => Ok(None),
    }
}

/// What a place of a reference type gets: what held neither a reference nor an interface value becomes NULL.
#[tactic(auto, using(shape_trees::specs::Shape::shape_views))]
fn relocated_from(
    c: &Change<'_, '_>,
    kind: &StType,
    old_shape: &Shape<'_>,
    old: &Value,
) -> Result<Option<Path>, NoMemory>
    requires { IsChange c.now }
    ensures { IfOk result (λ q. q ≡ reference_from (program_of c.now.old.program.now) (program_of c.now.new.program.now) kind.now (shape_of old_shape.now) (value_of old.now)) }
{
    match old_shape {
        Shape::Reference(_, _) => relocated_value(c, kind, old),
        Shape::Interface(_, _) => relocated_value(c, kind, old),
        Shape::Elementary(_) => Ok(None),
        Shape::Enumeration(_, _) => Ok(None),
        Shape::Array(_, _, _) => Ok(None),
        Shape::Structure(_, _, _) => Ok(None),
        Shape::Instance(_, _, _) => Ok(None),
    }
}

/// What a place gets that holds a reference.
#[tactic(auto, using(shape_trees::specs::Shape::shape_views))]
pub fn reference_before(
    shape: &Shape<'_>,
    c: &Change<'_, '_>,
    old_shape: &Shape<'_>,
    old: &Value,
    held: Option<Path>,
) -> Result<Option<Path>, NoMemory>
    requires { IsChange c.now }
    ensures { IfOk result (λ q. q ≡ reference_by (program_of c.now.old.program.now) (program_of c.now.new.program.now) (shape_of shape.now) (shape_of old_shape.now) (value_of old.now) held) }
{
    match shape {
        Shape::Reference(class, _) => {
            relocated_from(c, &StType::Reference(*class), old_shape, old)
        }
        Shape::Interface(interface, _) => {
            relocated_from(c, &StType::Interface(*interface), old_shape, old)
        }
        Shape::Elementary(_) => Ok(held),
        Shape::Enumeration(_, _) => Ok(held),
        Shape::Array(_, _, _) => Ok(held),
        Shape::Structure(_, _, _) => Ok(held),
        Shape::Instance(_, _, _) => Ok(held),
    }
}
