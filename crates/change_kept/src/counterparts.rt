//! Instances that go on from old ones.

ghost use Rattle.std.specs.Prelude.{◌≡◌, IfOk, Some};
ghost use Rattle.change_names.specs.change_paths.Change.{IsChange};
ghost use Rattle.change_kept.specs.Kept.{AreKept};
ghost use Rattle.reference_hooks.specs.Hooks.{member_of};
ghost use Rattle.shape_trees.specs.Shape.{shape_of};
ghost use Rattle.shape_trees.specs.Unfolding.{shape_in};
ghost use Rattle.st_change.specs.Change as words;
ghost use Rattle.st_change.specs.Counterpart.{is_instance_of};
ghost use Rattle.st_values.specs.Shape.{shape_at as plain_at};
ghost use Rattle.st_values.specs.Value.{◌>>=◌ as and_then};
ghost use Rattle.st_values.specs.View.{program_of};

use crate::marks::moves;
use change_names::{Change, new_path, old_path};
use plc_text::{NoMemory, Text};
use reference_hooks::Instance;
use shape_trees::{Shape, Shapes, class_name, region_shape, shape_at};
use st_tree::Path;

/// Whether a shape is that of an instance of a class of this name.
#[tactic(auto, using(shape_trees::specs::Shape::shape_views))]
fn is_of_class(shape: &Shape<'_>, name: &Text) -> bool
    ensures { result ≡ is_instance_of name.now (Some (shape_of shape.now)) }
{
    match shape {
        Shape::Instance(_, class, _) => **class == *name,
        Shape::Elementary(_) => false,
        Shape::Enumeration(_, _) => false,
        Shape::Reference(_, _) => false,
        Shape::Interface(_, _) => false,
        Shape::Array(_, _, _) => false,
        Shape::Structure(_, _, _) => false,
    }
}

/// Whether an instance of a class of this name stands at a path, by the shapes of the regions.
fn stands_at(shapes: &Shapes<'_>, path: &Path, name: &Text) -> bool
    ensures { result ≡ is_instance_of name.now (and_then (shape_in shapes.now.list path.now.region) (λ sh. plain_at sh path.now.steps)) }
{
    let Some(shape) = region_shape(shapes, path.region) else {
        return false;
    };
    match shape_at(shape, path.steps.as_slice()) {
        Some(end) => is_of_class(end, name),
        None => false,
    }
}

/// Whether an instance of the old program goes on in the new one.
pub fn goes_on(c: &Change<'_, '_>, kept: &[bool], instance: &Instance) -> Result<bool, NoMemory>
    requires change { IsChange c.now }
    requires are_kept { AreKept (program_of c.now.old.program.now) (program_of c.now.new.program.now) kept.now }
    ensures { IfOk result (λ it. it ≡ words.goes_on (program_of c.now.old.program.now) (program_of c.now.new.program.now) (member_of (program_of c.now.old.program.now) instance.now)) }
{
    let Some(name) = class_name(c.old.program, instance.class) else {
        return Err(NoMemory);
    };
    match new_path(c, &instance.path)? {
        Some(path) => Ok(moves(c, kept, &path) && stands_at(c.new_shapes, &path, name)),
        None => Ok(false),
    }
}

/// Whether an instance of the new program goes on from an old one.
pub fn comes_from(c: &Change<'_, '_>, kept: &[bool], instance: &Instance) -> Result<bool, NoMemory>
    requires change { IsChange c.now }
    requires are_kept { AreKept (program_of c.now.old.program.now) (program_of c.now.new.program.now) kept.now }
    ensures { IfOk result (λ it. it ≡ words.comes_from (program_of c.now.old.program.now) (program_of c.now.new.program.now) (member_of (program_of c.now.new.program.now) instance.now)) }
{
    let Some(name) = class_name(c.new.program, instance.class) else {
        return Err(NoMemory);
    };
    match old_path(c, &instance.path)? {
        Some(path) => { Ok(moves(c, kept, &instance.path) && stands_at(c.old_shapes, &path, name)) }
        None => Ok(false),
    }
}
