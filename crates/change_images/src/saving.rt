//! A copy of the old contents, made before the exits.

ghost use Rattle.std.specs.Prelude.{◌≡◌, ◌<◌, length, slice_get, slice_set, option_map, Some};
ghost use Rattle.change_images.specs.Apply.{AreAlike, IsAlike};

use mem_image::Regions;

/// Copies each image over the one of the same length in its place. Takes no memory.
pub fn save(olds: &Regions, saved: &mut Regions)
    requires { AreAlike olds.now saved.old }
    ensures { saved.new ≡ olds.now }
{
    let count = olds.len();
    for region in 0..count {
        save_region(olds, region, saved);
    }
}

fn save_region(olds: &Regions, region: u32, saved: &mut Regions)
    requires region { region < length olds.now }
    requires count { length saved.old ≡ length olds.now }
    requires alike { IsAlike (slice_get olds.now region) (slice_get saved.old region) }
    ensures { Some saved.new ≡ option_map (slice_set saved.old region) (slice_get olds.now region) }
{
    let Some(source) = olds.at(region) else {
        return;
    };
    let Some(image) = saved.at_mut(region) else {
        return;
    };
    let len = source.len();
    image.copy_from(0, source, 0, len);
}
