//! Ways before and after a change.

ghost use Rattle.std.specs.Prelude.{◌≡◌, true, option_map, slice_get};
ghost use Rattle.st_change.specs.From as words;
ghost use Rattle.st_values.specs.View.{program_of};
ghost use Rattle.change_names.specs.Pairs.{or_none};
ghost use Rattle.shape_trees.specs.Numbers.{is_numbered};
ghost use Rattle.shape_trees.specs.Shape.{shape_of};
ghost use Rattle.change_names.specs.change_paths.Change.{IsChange};
ghost use Rattle.change_names.specs.change_paths.Private.Programs.{other, program_at};
ghost use Rattle.change_names.specs.change_paths.Private.Walk as walk;
ghost use Rattle.change_names.specs.change_paths.Private.Walk.{way_is};

use crate::change_pairs::PairTable;
use crate::change_paths::change::Change;
use crate::change_paths::ways::Way;
use crate::change_paths::which::Which;
use plc_text::Text;
use shape_trees::Shape;

/// The table of a number.
fn table_at<'a, 'p>(tables: &'a [PairTable<'p>], number: u32) -> Option<&'a PairTable<'p>>
    ensures { option_map (λ t. t.now) result ≡ slice_get tables.now number }
{
    match tables.get(number as usize) {
        Some(table) => Some(table),
        None => None,
    }
}

/// The fields or variables of a shape of the new program with their old names.
#[tactic(auto, using(shape_trees::specs::Shape::shape_views))]
fn pairs<'c>(c: &Change<'c, '_>, shape: &Shape<'_>) -> Option<&'c PairTable<'c>>
    requires is_change { IsChange c.now }
    requires numbered { is_numbered (program_of c.now.new.program.now) shape.now ≡ true }
    ensures { or_none (option_map (λ t. t.now) result) ≡ words.pairs_of (program_of c.now.old.program.now) (program_of c.now.new.program.now) (shape_of shape.now) }
{
    match shape {
        Shape::Structure(n, _, _) => table_at(&c.names.structures, *n),
        Shape::Instance(k, _, _) => table_at(&c.names.classes, *k),
        Shape::Array(_, _, _) => None,
        Shape::Elementary(_) => None,
        Shape::Enumeration(_, _) => None,
        Shape::Reference(_, _) => None,
        Shape::Interface(_, _) => None,
    }
}

/// The old name of a field of a shape of the new program.
fn old_name<'c>(c: &Change<'c, '_>, shape: &Shape<'_>, name: &Text) -> Option<&'c Text>
    requires is_change { IsChange c.now }
    requires numbered { is_numbered (program_of c.now.new.program.now) shape.now ≡ true }
    ensures { option_map (λ t. t.now) result ≡ words.old_name (words.pairs_of (program_of c.now.old.program.now) (program_of c.now.new.program.now) (shape_of shape.now)) name.now }
{
    match pairs(c, shape) {
        Some(table) => table.old_name(name),
        None => None,
    }
}

/// The name of a field of a shape of the new program that comes from an old one.
fn new_name<'c>(c: &Change<'c, '_>, shape: &Shape<'_>, old: &Text) -> Option<&'c Text>
    requires is_change { IsChange c.now }
    requires numbered { is_numbered (program_of c.now.new.program.now) shape.now ≡ true }
    ensures { option_map (λ t. t.now) result ≡ words.new_name (words.pairs_of (program_of c.now.old.program.now) (program_of c.now.new.program.now) (shape_of shape.now)) old.now }
{
    match pairs(c, shape) {
        Some(table) => table.new_name(old),
        None => None,
    }
}

/// The old way of a new one, by the shape of the new program.
fn old_way<'c>(c: &Change<'c, '_>, shape: &Shape<'_>, way: &Way<'_>) -> Option<Way<'c>>
    requires is_change { IsChange c.now }
    requires numbered { is_numbered (program_of c.now.new.program.now) shape.now ≡ true }
    ensures { option_map way_is result ≡ words.old_way (program_of c.now.old.program.now) (program_of c.now.new.program.now) (shape_of shape.now) (way_is way.now) }
{
    match way {
        Way::Index(index) => Some(Way::Index(*index)),
        Way::Name(name) => match old_name(c, shape, name) {
            Some(old) => Some(Way::Name(old)),
            None => None,
        },
    }
}

/// The new way of an old one, by the shape of the new program.
fn new_way<'c>(c: &Change<'c, '_>, shape: &Shape<'_>, way: &Way<'_>) -> Option<Way<'c>>
    requires is_change { IsChange c.now }
    requires numbered { is_numbered (program_of c.now.new.program.now) shape.now ≡ true }
    ensures { option_map way_is result ≡ words.new_way (program_of c.now.old.program.now) (program_of c.now.new.program.now) (shape_of shape.now) (way_is way.now) }
{
    match way {
        Way::Index(index) => Some(Way::Index(*index)),
        Way::Name(name) => match new_name(c, shape, name) {
            Some(new) => Some(Way::Name(new)),
            None => None,
        },
    }
}

/// The way in the program `to`.
pub fn turned<'c>(
    c: &Change<'c, '_>,
    to: Which,
    from: &Shape<'_>,
    there: &Shape<'_>,
    way: &Way<'_>,
) -> Option<Way<'c>>
    requires is_change { IsChange c.now }
    requires from_numbered { is_numbered (program_at c.now (other to)) from.now ≡ true }
    requires there_numbered { is_numbered (program_at c.now to) there.now ≡ true }
    ensures { option_map way_is result ≡ walk.turned (program_of c.now.old.program.now) (program_of c.now.new.program.now) to (shape_of from.now) (shape_of there.now) (way_is way.now) }
{
    match to {
        Which::Old => old_way(c, from, way),
        Which::New => new_way(c, there, way),
    }
}
