//! The blocks of an image: before the first write to a block its bytes are kept beside it.

ghost use Rattle.std.specs.Prelude.{◌≡◌, ◌+◌, ◌*◌, ◌<◌, ◌≤◌, true, false, ℕ, List, length, get_or};
ghost use Rattle.undo_image.specs.Private.Blocks.{IsWellFormed, IsUndoable, StaysUndoable, AreMarked, Restores, is_marked};

use mem_image::Image;

/// How many bytes a block has; the last one of an image may have fewer.
pub const BLOCK: u32 = 256;

/// An image, the bytes that its marked blocks had before, and the marks: a block is marked where its mark is the number
/// of the epoch, so that another epoch has no marks.
#[derive(Drop)]
pub struct Blocks {
    pub image: Image,
    pub before: Image,
    pub marks: Vec<u32>,
    pub epoch: u32,
}

impl Blocks {
    /// Keeps the bytes of a block, and marks it.
    fn save(&mut self, block: u32)
        requires formed { IsWellFormed self.old }
        requires within { block * 256 < length self.old.image }
        requires unmarked { is_marked self.old block ≡ false }
        ensures stays { StaysUndoable self.old self.new }
        ensures marked { is_marked self.new block ≡ true }
    {
        let start = block * BLOCK;
        let left = self.image.len() - start;
        let n = left.min(BLOCK);
        self.before.copy_from(start, &self.image, start, n);
        self.marks[block as usize] = self.epoch;
    }

    /// The same, where it is not marked.
    #[inline]
    fn preserve_block(&mut self, block: u32)
        requires formed { IsWellFormed self.old }
        requires within { block * 256 < length self.old.image }
        ensures stays { StaysUndoable self.old self.new }
        ensures marked { is_marked self.new block ≡ true }
    {
        if self.marks[block as usize] != self.epoch {
            self.save(block);
        }
    }

    /// Before a write to at most 256 bytes.
    #[inline]
    pub fn preserve_few(&mut self, at: u32, n: u32)
        requires formed { IsWellFormed self.old }
        requires few { n ≤ 256 }
        requires within { at + n ≤ length self.old.image }
        ensures stays { StaysUndoable self.old self.new }
        ensures marked { AreMarked self.new at n }
    {
        if n == 0 {
            return;
        }
        let first = at / BLOCK;
        let last = (at + (n - 1)) / BLOCK;
        if self.marks[first as usize] != self.epoch || self.marks[last as usize] != self.epoch {
            self.preserve_two(first, last);
        }
    }

    /// The same, for two blocks.
    fn preserve_two(&mut self, first: u32, last: u32)
        requires formed { IsWellFormed self.old }
        requires first { first * 256 < length self.old.image }
        requires last { last * 256 < length self.old.image }
        ensures stays { StaysUndoable self.old self.new }
        ensures first { is_marked self.new first ≡ true }
        ensures last { is_marked self.new last ≡ true }
    {
        self.preserve_block(first);
        self.preserve_block(last);
    }

    /// Before a write to any number of bytes.
    #[inline]
    pub fn preserve(&mut self, at: u32, n: u32)
        requires formed { IsWellFormed self.old }
        requires within { at + n ≤ length self.old.image }
        ensures stays { StaysUndoable self.old self.new }
        ensures marked { AreMarked self.new at n }
    {
        if n <= BLOCK {
            self.preserve_few(at, n);
        } else {
            self.preserve_many(at, n);
        }
    }

    /// The same, block by block.
    fn preserve_many(&mut self, at: u32, n: u32)
        requires formed { IsWellFormed self.old }
        requires some { 0 < n }
        requires within { at + n ≤ length self.old.image }
        ensures stays { StaysUndoable self.old self.new }
        ensures marked { AreMarked self.new at n }
    {
        let first = at / BLOCK;
        let last = (at + (n - 1)) / BLOCK;
        'blocks: for block in first..last + 1 {
            self.preserve_block(block);
        }
    }

    /// Puts the bytes of a block back.
    fn put_back(&mut self, block: u32)
        requires formed { IsWellFormed self.old }
        requires within { block < length self.old.marks.items }
        requires marked { is_marked self.old block ≡ true }
        ensures restores { Restores self.old self.new }
        ensures unmarked { is_marked self.new block ≡ false }
    {
        let start = block * BLOCK;
        let left = self.image.len() - start;
        let n = left.min(BLOCK);
        self.image.copy_from(start, &self.before, start, n);
        self.marks[block as usize] = 0;
    }

    /// The same, where it is marked.
    fn restore(&mut self, block: u32)
        requires formed { IsWellFormed self.old }
        requires within { block < length self.old.marks.items }
        ensures restores { Restores self.old self.new }
        ensures unmarked { is_marked self.new block ≡ false }
    {
        if self.marks[block as usize] == self.epoch {
            self.put_back(block);
        }
    }

    /// Puts the bytes of all marked blocks back.
    pub fn restore_all(&mut self)
        requires formed { IsWellFormed self.old }
        ensures { (committed : List ℕ) → IsUndoable self.old committed → IsUndoable self.new committed × (self.new.image ≡ committed) }
    {
        'blocks: for block in 0..self.marks.len() as u32 {
            self.restore(block);
        }
    }

    /// Takes all marks away.
    fn unmark_all(&mut self)
        requires formed { IsWellFormed self.old }
        ensures image { self.new.image ≡ self.old.image }
        ensures undoable { IsUndoable self.new self.old.image }
    {
        self.marks.fill(0);
        self.epoch = 1;
    }

    /// What is kept is needed no more.
    #[inline]
    pub fn commit(&mut self)
        requires formed { IsWellFormed self.old }
        ensures image { self.new.image ≡ self.old.image }
        ensures undoable { IsUndoable self.new self.old.image }
    {
        if self.epoch == u32::MAX {
            self.unmark_all();
        } else {
            self.epoch += 1;
        }
    }
}
