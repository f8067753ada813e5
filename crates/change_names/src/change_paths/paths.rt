//! Paths before and after a change.

ghost use Rattle.std.specs.Prelude.{◌≡◌, IfOk, option_map, slice_get};
ghost use Rattle.st_change.specs.From as words;
ghost use Rattle.st_values.specs.View.{program_of};
ghost use Rattle.change_names.specs.Regions.{number_at};
ghost use Rattle.shape_trees.specs.Unfolding.{joined};
ghost use Rattle.change_names.specs.change_paths.Change.{IsChange};
ghost use Rattle.change_names.specs.change_paths.Private.Programs.{shapes_at};
ghost use Rattle.change_names.specs.change_paths.Private.Walk as walk;

use crate::change_paths::change::Change;
use crate::change_paths::walk::steps_there;
use crate::change_paths::which::{Which, other, shapes};
use plc_text::NoMemory;
use shape_trees::Shape;
use st_tree::Path;

/// The number of a region by a table.
fn number_in(numbers: &[Option<u32>], region: u32) -> Option<u32>
    ensures { result ≡ number_at numbers.now region }
{
    match numbers.get(region as usize) {
        Some(number) => *number,
        None => None,
    }
}

/// The region in the program `to`.
fn region_there(c: &Change<'_, '_>, to: Which, region: u32) -> Option<u32>
    requires { IsChange c.now }
    ensures { result ≡ walk.region_there (program_of c.now.old.program.now) (program_of c.now.new.program.now) to region }
{
    match to {
        Which::Old => number_in(&c.names.regions.old, region),
        Which::New => number_in(&c.names.regions.new, region),
    }
}

/// The shape of a region, where it has one.
pub fn region_shape<'c, 'p>(c: &Change<'c, 'p>, of: Which, region: u32) -> Option<&'c Shape<'p>>
    ensures { option_map (λ sh. sh.now) result ≡ joined (slice_get (shapes_at c.now of) region) }
{
    match shapes(c, of).list.get(region as usize) {
        Some(Some(shape)) => Some(shape),
        Some(None) => None,
        None => None,
    }
}

/// The path in the program `to`.
fn path_there(c: &Change<'_, '_>, to: Which, path: &Path) -> Result<Option<Path>, NoMemory>
    requires { IsChange c.now }
    ensures { IfOk result (λ found. found ≡ walk.path_there (program_of c.now.old.program.now) (program_of c.now.new.program.now) to path.now) }
{
    let Some(region) = region_there(c, to, path.region) else {
        return Ok(None);
    };
    let Some(from) = region_shape(c, other(to), path.region) else {
        return Ok(None);
    };
    let Some(there) = region_shape(c, to, region) else {
        return Ok(None);
    };
    match steps_there(c, to, from, there, path.steps.as_slice())? {
        Some(steps) => Ok(Some(Path { region, steps })),
        None => Ok(None),
    }
}

/// The path of the new program that a path of the old one has there, by the names and marks of its region and fields; none where nothing comes
/// from it.
pub fn new_path(c: &Change<'_, '_>, path: &Path) -> Result<Option<Path>, NoMemory>
    requires { IsChange c.now }
    ensures { IfOk result (λ q. q ≡ words.new_path (program_of c.now.old.program.now) (program_of c.now.new.program.now) path.now) }
{
    path_there(c, Which::New, path)
}

/// The path of the old program that a path of the new one comes from; none where it comes from none.
pub fn old_path(c: &Change<'_, '_>, path: &Path) -> Result<Option<Path>, NoMemory>
    requires { IsChange c.now }
    ensures { IfOk result (λ q. q ≡ words.old_path (program_of c.now.old.program.now) (program_of c.now.new.program.now) path.now) }
{
    path_there(c, Which::Old, path)
}
