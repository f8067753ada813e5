//! The images of all regions.

ghost use Rattle.std.specs.Prelude.{◌≡◌, true, length, IfOk};
ghost use Rattle.st_values.specs.View.{program_of};
ghost use Rattle.program_tables.specs.st_initial.Members.{Holds};
ghost use Rattle.mem_layout.specs.store_bytes.InitialLaws.{StartsInRange, AreInitial};
ghost use Rattle.mem_layout.specs.Layout.{RegionsHaveShapes};
ghost use Rattle.mem_layout.specs.initial_images.Private.Images.{Begun};

use crate::Layout;
use crate::initial_images::fill::fill_type;
use mem_image::{Image, Regions};
use plc_text::NoMemory;
use program_tables::{Members, members_of};
use st_tree::{Program, RegionDecl};
use std::alloc::Global;

/// Steps of containment that types may have, and one more.
const DEPTH: u32 = 65;

/// The image with which a region begins.
fn initial_image(
    alloc: Global,
    layout: &Layout,
    members: &Members<'_>,
    decl: &RegionDecl,
) -> Result<Image, NoMemory>
    requires members { Holds (program_of layout.now) members.now }
    ensures { IfOk result (λ image. Begun (program_of layout.now) decl.now image) }
{
    let bytes = layout.size_of(&decl.kind);
    let mut image = Image::new(alloc, bytes)?;
    let given = decl.initial.as_ref();
    fill_type(
        alloc, layout, members, DEPTH, &decl.kind, given, 0, &mut image,
    )?;
    Ok(image)
}

/// The images with which the regions of a program begin, one for each: the numbers of its initial values, and zeros for what is
/// NULL, where the layout has them, the number of its class before each instance, and zeros between.
/// It speaks of a program whose regions have types that unfold, to fewer than 2^32 bytes each, and whose initial numbers are of
/// their kinds, as each does that is accepted.
pub fn initial_images(alloc: Global, layout: &Layout, p: &Program) -> Result<Regions, NoMemory>
    requires { layout.now ≡ p.now }
    ensures initial { IfOk result (λ images. RegionsHaveShapes (program_of p.now) → StartsInRange (program_of p.now) → AreInitial (program_of p.now) (λ r. true) images) }
    ensures long { IfOk result (λ images. length images ≡ length p.now.regions) }
{
    let decls = p.regions.as_slice();
    let Ok(count) = u32::try_from(decls.len()) else {
        return Err(NoMemory);
    };
    let members = members_of(alloc, p)?;
    let mut images = Regions::new(alloc, count)?;
    for region in 0..count {
        let decl = &decls[region as usize];
        let image = initial_image(alloc, layout, &members, decl)?;
        images.put(region, image);
    }
    Ok(images)
}
