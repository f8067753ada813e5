//! What is kept beside an image so that its writes can be undone.

ghost use Rattle.std.specs.Prelude.{◌≡◌, length, IfOk};
ghost use Rattle.undo_image.specs.Private.Blocks.{IsUndoable, IsWellFormed};

use crate::blocks::{BLOCK, Blocks};
use mem_image::Image;
use plc_text::NoMemory;
use std::alloc::Global;
use std::marker::Model;

/// Room for the bytes that the blocks of an image had before they were written, and the marks of these blocks. A contract sees it as the
/// number of bytes that the image has.
#[derive(Drop)]
pub struct UndoLog {
    before: Image,
    marks: Vec<u32>,
    epoch: u32,
}

impl Model for UndoLog {
    ghost use Rattle.std.specs.Prelude.{ℕ, length};
    ghost use Rattle.undo_image.specs.Private.Blocks.{IsLog};

    ghost Value = { ℕ };

    ghost view = { λ l. length l.before };

    ghost invariant = { λ l. IsLog l.before l.marks.items l.epoch };
}

impl UndoLog {
    /// Room for an image of that many bytes.
    pub fn new(alloc: Global, bytes: u32) -> Result<UndoLog, NoMemory>
        ensures { IfOk result (λ log. log ≡ bytes) }
    {
        let before = Image::new(alloc, bytes)?;
        let marks = vec![in alloc; 0; bytes.div_ceil(BLOCK) as usize]?;
        Ok(UndoLog {
            before,
            marks,
            epoch: 1,
        })
    }

    /// The blocks of an image, none of them marked.
    pub(crate) fn with_image(self, image: Image) -> Blocks
        requires { length image ≡ self }
        ensures image { result.image ≡ image }
        ensures undoable { IsUndoable result image }
    {
        let UndoLog {
            before,
            marks,
            epoch,
        } = self;
        let mut blocks = Blocks {
            image,
            before,
            marks,
            epoch,
        };
        blocks.commit();
        blocks
    }

    /// The image, and the room that is left behind.
    pub(crate) fn without_image(blocks: Blocks) -> (Image, UndoLog)
        requires { IsWellFormed blocks }
        ensures image { result.0 ≡ blocks.image }
        ensures log { result.1 ≡ length blocks.image }
    {
        let Blocks {
            image,
            before,
            marks,
            epoch,
        } = blocks;
        let log = UndoLog {
            before,
            marks,
            epoch,
        };
        (image, log)
    }
}
