//! Which regions of a new program are kept.

ghost use Rattle.std.specs.Prelude.{◌≡◌, IfOk, slice_get};
ghost use Rattle.change_names.specs.Regions.{number_at};
ghost use Rattle.change_names.specs.change_paths.Change.{IsChange};
ghost use Rattle.change_kept.specs.Kept.{AreKept, is_set};
ghost use Rattle.st_change.specs.Counterpart as words;
ghost use Rattle.st_values.specs.View.{program_of};

use crate::fresh::is_made_anew;
use change_names::Change;
use plc_text::NoMemory;
use shape_trees::{region_shape, same_shape};

/// Whether a flag is set.
pub fn is_set(flags: &[bool], region: u32) -> bool
    ensures { result ≡ is_set (slice_get flags.now region) }
{
    match flags.get(region as usize) {
        Some(flag) => *flag,
        None => false,
    }
}

/// The region of this number in the other program.
pub fn number_in(numbers: &[Option<u32>], region: u32) -> Option<u32>
    ensures { result ≡ number_at numbers.now region }
{
    match numbers.get(region as usize) {
        Some(number) => *number,
        None => None,
    }
}

/// Whether a region of the new program stays as it is.
fn is_kept(c: &Change<'_, '_>, region: u32) -> bool
    requires { IsChange c.now }
    ensures { result ≡ words.kept (program_of c.now.old.program.now) (program_of c.now.new.program.now) region }
{
    let Some(decl) = c.new.program.regions.get(region as usize) else {
        return false;
    };
    let Some(before) = number_in(&c.names.regions.old, region) else {
        return false;
    };
    let Some(shape) = region_shape(c.new_shapes, region) else {
        return false;
    };
    let Some(old) = region_shape(c.old_shapes, before) else {
        return false;
    };
    if is_made_anew(shape, decl.marks.init_on_change) {
        return false;
    }
    same_shape(shape, old)
}

/// For each region of the new program whether it is kept: it comes from a region of equal shape, and holds no instance that is made anew.
pub fn kept_regions(c: &Change<'_, '_>) -> Result<Vec<bool>, NoMemory>
    requires { IsChange c.now }
    ensures { IfOk result (λ kept. AreKept (program_of c.now.old.program.now) (program_of c.now.new.program.now) kept.items) }
{
    let mut kept = Vec::new(c.alloc);
    let end = c.new.program.regions.len();
    for r in 0..end {
        let Ok(region) = u32::try_from(r) else {
            return Err(NoMemory);
        };
        kept.push(is_kept(c, region))?;
    }
    Ok(kept)
}
