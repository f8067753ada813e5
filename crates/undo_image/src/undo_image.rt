//! Images whose writes can be undone.

ghost use Rattle.std.specs.Prelude.{◌≡◌, ◌+◌, ◌≤◌, length, slice_range};
ghost use Rattle.st_types.specs.Elem as kinds;
ghost use Rattle.st_types.specs.Range.{Fits};
ghost use Rattle.mem_image.specs.Image.{replaced, value_at, written};
ghost use Rattle.undo_image.specs.Undoable.{settled};

use crate::blocks::Blocks;
use crate::undo_log::UndoLog;
use mem_image::Image;
use st_types::Elem;
use std::marker::Model;
use std::snapshot::Snapshot;

/// The bytes of a region, and what they were when they were committed last. Takes no memory: a block of 256 bytes is copied into the log
/// before its first write, so that a commit is one addition, and a rollback costs what was written and a look at each mark.
#[derive(Drop)]
pub struct UndoImage {
    blocks: Blocks,
    committed: Snapshot<Image>,
}

impl Model for UndoImage {
    ghost use Rattle.undo_image.specs.Undoable.{Undoable};
    ghost use Rattle.undo_image.specs.Private.Blocks.{IsUndoable};

    ghost Value = { Undoable };

    ghost view = { λ i. record { bytes = i.blocks.image; committed = i.committed.value } };

    ghost invariant = { λ i. IsUndoable i.blocks i.committed.value };
}

impl UndoImage {
    /// An image whose bytes are committed. What the log kept of another image is forgotten.
    pub fn new(log: UndoLog, image: Image) -> UndoImage
        requires { length image ≡ log }
        ensures { result ≡ settled image }
    {
        let committed = Snapshot::of(&image);
        let blocks = log.with_image(image);
        UndoImage { blocks, committed }
    }

    /// The image, and the log.
    pub fn into_parts(self) -> (Image, UndoLog)
        ensures image { result.0 ≡ self.bytes }
        ensures log { result.1 ≡ length self.bytes }
    {
        let UndoImage {
            blocks,
            committed: _,
        } = self;
        UndoLog::without_image(blocks)
    }

    /// How many bytes there are.
    #[inline]
    pub fn len(&self) -> u32
        ensures { result ≡ length self.now.bytes }
    {
        self.blocks.image.len()
    }

    /// What was committed last has as many bytes: a fact for proofs.
    #[inline]
    pub fn keeps_length(&self)
        ensures { length self.now.committed ≡ length self.now.bytes }
    {
        let _ = &self.blocks;
    }

    /// The value of the kind at the offset. Of a BOOL's byte the lowest bit counts.
    #[inline]
    pub fn read(&self, e: Elem, offset: u32) -> i128
        requires { offset + kinds.bytes e ≤ length self.now.bytes }
        ensures { result ≡ value_at e self.now.bytes offset }
    {
        self.blocks.image.read(e, offset)
    }

    /// The `len` bytes from the offset on.
    #[inline]
    pub fn part(&self, offset: u32, len: u32) -> &[u8]
        requires { offset + len ≤ length self.now.bytes }
        ensures { result.now ≡ slice_range self.now.bytes offset (offset + len) }
    {
        self.blocks.image.part(offset, len)
    }

    /// Writes the value of the kind at the offset.
    #[inline]
    pub fn write(&mut self, e: Elem, offset: u32, v: i128)
        requires fits { Fits e v }
        requires within { offset + kinds.bytes e ≤ length self.old.bytes }
        ensures { self.new ≡ record { bytes = written e self.old.bytes offset v; committed = self.old.committed } }
    {
        self.blocks.preserve_few(offset, e.bytes());
        self.blocks.image.write(e, offset, v);
    }

    /// Writes the bytes over those from `to` on.
    #[inline]
    pub fn fill_from(&mut self, to: u32, bytes: &[u8])
        requires { to + length bytes.now ≤ length self.old.bytes }
        ensures { self.new ≡ record { bytes = replaced self.old.bytes to bytes.now; committed = self.old.committed } }
    {
        self.blocks.preserve(to, bytes.len() as u32);
        self.blocks.image.fill_from(to, bytes);
    }

    /// Writes the `len` bytes from `from` on over those from `to` on, also where the two overlap.
    #[inline]
    pub fn copy_within_image(&mut self, to: u32, from: u32, len: u32)
        requires target { to + len ≤ length self.old.bytes }
        requires source { from + len ≤ length self.old.bytes }
        ensures { self.new ≡ record { bytes = replaced self.old.bytes to (slice_range self.old.bytes from (from + len)); committed = self.old.committed } }
    {
        self.blocks.preserve(to, len);
        self.blocks.image.copy_within_image(to, from, len);
    }

    /// The bytes are committed.
    #[inline]
    pub fn commit(&mut self)
        ensures { self.new ≡ settled self.old.bytes }
    {
        self.blocks.commit();
        self.committed = Snapshot::of(&self.blocks.image);
    }

    /// Puts back what was committed last.
    pub fn roll_back(&mut self)
        ensures { self.new ≡ settled self.old.committed }
    {
        self.blocks.restore_all();
    }
}
