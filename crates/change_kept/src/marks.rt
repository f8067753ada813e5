//! Marks of the variables on the way to a place.

ghost use Rattle.std.specs.Prelude.{◌≡◌, ◌&&◌, not, Some, slice_get};
ghost use Rattle.change_names.specs.change_paths.Change.{IsChange};
ghost use Rattle.change_kept.specs.Kept.{AreKept};
ghost use Rattle.shape_trees.specs.Shape.{fields_of, shape_of};
ghost use Rattle.st_change.specs.Counterpart as words;
ghost use Rattle.program_tables.specs.st_initial.Variables.{variable_of};
ghost use Rattle.st_values.specs.View.{program_of};

use crate::kept::is_set;
use change_names::Change;
use plc_text::Items;
use program_tables::Variable;
use shape_trees::{Field, Shape, part, region_shape};
use st_tree::{Path, Step};

/// Whether a variable goes on at each change.
fn is_unmarked(variable: &Variable<'_>) -> bool
    ensures { result ≡ words.is_unmarked (variable_of variable.now) }
{
    !(variable.init_on_change || variable.no_copy)
}

/// Whether the field of this number is there and unmarked.
fn unmarked_field(fields: &Items<Field<'_>>, number: u32) -> bool
    ensures { result ≡ words.unmarked_field (fields_of fields.now) number }
{
    match fields.get(number as usize) {
        Some(field) => is_unmarked(&field.variable),
        None => false,
    }
}

/// Whether a step leads to no variable that is marked.
#[tactic(auto, using(shape_trees::specs::Shape::shape_views))]
fn unmarked_step(shape: &Shape<'_>, step: &Step) -> bool
    ensures { result ≡ words.unmarked_step (shape_of shape.now) step.now }
{
    match shape {
        Shape::Structure(_, _, fields) => match step {
            Step::Field(k) => unmarked_field(fields, *k),
            Step::Element(_) => true,
        },
        Shape::Instance(_, _, fields) => match step {
            Step::Field(k) => unmarked_field(fields, *k),
            Step::Element(_) => true,
        },
        Shape::Elementary(_) => true,
        Shape::Enumeration(_, _) => true,
        Shape::Reference(_, _) => true,
        Shape::Interface(_, _) => true,
        Shape::Array(_, _, _) => true,
    }
}

/// Whether steps lead through a shape and over no variable that is marked.
fn unmarked_steps(shape: &Shape<'_>, steps: &[Step]) -> bool
    ensures { result ≡ words.unmarked_steps (Some (shape_of shape.now)) steps.now }
{
    match steps {
        [] => true,
        [step, rest @ ..] => {
            if !unmarked_step(shape, step) {
                return false;
            }
            match part(shape, step) {
                Some(inner) => unmarked_steps(inner, rest),
                None => false,
            }
        }
    }
}

/// Whether a region of the new program is there and unmarked.
fn unmarked_region(c: &Change<'_, '_>, region: u32) -> bool
    ensures { result ≡ words.unmarked_region (slice_get (program_of c.now.new.program.now).regions region) }
{
    match c.new.program.regions.get(region as usize) {
        Some(decl) => !(decl.marks.init_on_change || decl.marks.no_copy),
        None => false,
    }
}

/// Whether a path of the new program lies in a region that moves, and leads over no variable that is marked.
pub fn moves(c: &Change<'_, '_>, kept: &[bool], path: &Path) -> bool
    requires change { IsChange c.now }
    requires are_kept { AreKept (program_of c.now.old.program.now) (program_of c.now.new.program.now) kept.now }
    ensures { result ≡ words.moves (program_of c.now.old.program.now) (program_of c.now.new.program.now) path.now }
{
    if is_set(kept, path.region) {
        return false;
    }
    if !unmarked_region(c, path.region) {
        return false;
    }
    match region_shape(c.new_shapes, path.region) {
        Some(shape) => unmarked_steps(shape, path.steps.as_slice()),
        None => false,
    }
}
