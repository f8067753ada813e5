//! Images that change places between two tables.

ghost use Rattle.std.specs.Prelude.{◌≡◌, ◌+◌, ◌<◌, length, slice_set, slice_get, Some, None};
ghost use Rattle.plant_rules.specs.Meaning.{Rising, bytes_at};
ghost use Rattle.plant_core.specs.plant_moves.Moves.{Moved, MayMove, CanCopy, Copied, MayCopy, Taken, MayTake, or_stay};

use mem_image::{Image, Regions};

fn move_one(region: u32, from: &mut Regions, to: &mut Regions)
    requires from { region < length from.old }
    requires to { region < length to.old }
    requires empty { bytes_at to.old region ≡ None }
    ensures from { from.new ≡ slice_set from.old region None }
    ensures to { to.new ≡ slice_set to.old region (bytes_at from.old region) }
{
    if let Some(image) = from.take(region) {
        to.put(region, image);
    }
}

/// Moves the images of these regions from the one table to the other, where their places are empty.
pub fn move_all(regions: &[u32], from: &mut Regions, to: &mut Regions)
    requires rising { Rising regions.now }
    requires may { MayMove regions.now from.old to.old }
    ensures { Moved regions.now from.old to.old from.new to.new }
{
    for region in regions {
        move_one(*region, from, to);
    }
}

// The image with the bytes of the other one, which is as long.
fn filled(mut image: Image, source: &Image) -> Image
    requires { length image ≡ length source.now }
    ensures { result ≡ source.now }
{
    let len = source.len();
    image.copy_from(0, source, 0, len);
    image
}

fn copy_one(region: u32, from: &Regions, to: &mut Regions)
    requires from { region < length from.now }
    requires to { region < length to.old }
    requires same { CanCopy (bytes_at from.now region) (bytes_at to.old region) }
    ensures { to.new ≡ slice_set to.old region (or_stay (bytes_at from.now region) (bytes_at to.old region)) }
{
    let Some(source) = from.at(region) else {
        return;
    };
    match to.take(region) {
        Some(image) => to.put(region, filled(image, source)),
        None => unreachable!(),
    }
}

// Copies the bytes of these regions, as far as they are there, over images of the other table.
fn copy_all(regions: &[u32], from: &Regions, to: &mut Regions)
    requires rising { Rising regions.now }
    requires may { MayCopy regions.now from.now to.old }
    ensures { Copied regions.now from.now to.old to.new }
{
    for region in regions {
        copy_one(*region, from, to);
    }
}

/// Takes what a cycle needs: moves what it writes, and copies what it only reads over the images that the carrier has for
/// it. What is moved away is not there to be copied.
pub fn take_images(reads: &[u32], writes: &[u32], home: &mut Regions, carrier: &mut Regions)
    requires reads { Rising reads.now }
    requires writes { Rising writes.now }
    requires may { MayTake reads.now writes.now home.old carrier.old }
    ensures { Taken reads.now writes.now home.old carrier.old home.new carrier.new }
{
    move_all(writes, home, carrier);
    copy_all(reads, home, carrier);
}
