//! Tables of images whose writes can be undone, by region.

ghost use Rattle.std.specs.Prelude.{◌≡◌, ◌<◌, length, replicate, slice_get, slice_set, Some, None, IfOk};
ghost use Rattle.std.specs.Option.{option_copied, option_copied_mut};
ghost use Rattle.std.specs.Borrow.{sem};
ghost use Rattle.undo_image.specs.UndoRegionsLoans.{LendsImage};

use crate::undo_image::UndoImage;
use plc_text::NoMemory;
use std::alloc::Global;
use std::marker::Model;

/// A table of places for images, as many as when it was made. A contract sees it as the list of its places, each empty
/// or with an image.
#[derive(Drop)]
pub struct UndoRegions {
    places: Vec<Option<UndoImage>>,
}

impl Model for UndoRegions {
    ghost use Rattle.std.specs.Prelude.{ℕ, List, Option, ◌^◌, ◌<◌, length};
    ghost use Rattle.undo_image.specs.Undoable.{Undoable};

    ghost Value = { List (Option Undoable) };

    ghost view = { λ r. r.places.items };

    ghost invariant = { λ r. length r.places.items < 2 ^ 32 };
}

impl UndoRegions {
    /// A table of that many empty places.
    pub fn new(alloc: Global, regions: u32) -> Result<UndoRegions, NoMemory>
        ensures { IfOk result (λ table. table ≡ replicate regions None) }
    {
        let mut places = Vec::new(alloc);
        places.reserve(regions as usize)?;
        for _ in 0..regions {
            places.push(None)?;
        }
        Ok(UndoRegions { places })
    }

    /// How many places there are.
    #[inline]
    pub fn len(&self) -> u32
        ensures { result ≡ length self.now }
    {
        self.places.len() as u32
    }

    /// The image at the place.
    #[inline]
    pub fn at(&self, region: u32) -> Option<&UndoImage>
        requires { region < length self.now }
        ensures { slice_get self.now region ≡ Some (option_copied result) }
    {
        self.places[region as usize].as_ref()
    }

    /// The image at the place, to be written.
    #[inline]
    pub fn at_mut(&mut self, region: u32) -> Option<&mut UndoImage>
        requires { region < length self.old }
        ensures* writes_back { sem 𝓛 (LendsImage self.entry region result) }
        ensures value { slice_get self.old region ≡ Some (option_copied_mut result) }
    {
        let place = &mut self.places[region as usize];
        place.as_mut()
    }

    /// Takes the image away from the place, which is empty then.
    #[inline]
    pub fn take(&mut self, region: u32) -> Option<UndoImage>
        requires { region < length self.old }
        ensures image { slice_get self.old region ≡ Some result }
        ensures empties { self.new ≡ slice_set self.old region None }
    {
        self.places[region as usize].take()
    }

    /// Puts the image at the place, which is empty before.
    #[inline]
    pub fn put(&mut self, region: u32, image: UndoImage)
        requires { slice_get self.old region ≡ Some None }
        ensures { self.new ≡ slice_set self.old region (Some image) }
    {
        self.places[region as usize] = Some(image);
    }
}
