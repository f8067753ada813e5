//! The locals of the open calls.

ghost use Rattle.std.specs.Prelude.{◌≡◌, ◌+◌, ◌-◌, ◌*◌, ◌^◌, ◌<◌, ◌≤◌, ◌∷◌, ◌++◌, [], length, replicate, take, slice_set, slice_range, IfOk, slice_get, slice_index_or, Some};
ghost use Rattle.std.specs.Option.{option_map};
ghost use Rattle.st_types.specs.Range.{Fits};
ghost use Rattle.st_types.specs.Elem as kinds;
ghost use Rattle.mem_image.specs.Image.{value_at, written, replaced};

use mem_image::Image;
use plc_text::NoMemory;
use st_types::Elem;
use std::alloc::Global;
use std::marker::Model;

/// The most calls that are open at once, and the program's body.
pub const DEPTHS: u32 = 65;

/// The locals of the open calls in fixed room, those of a call at its depth times the stride. A contract sees them as a
/// list, those of the program's body first, and the stride.
#[derive(Drop)]
pub struct Locals {
    bytes: Image,
    lens: Vec<u32>,
    stride: u32,
}

impl Model for Locals {
    ghost use Rattle.std.specs.Prelude.{length};
    ghost use Rattle.machine_memory.specs.Locals.{Calls};
    ghost use Rattle.machine_memory.specs.Private.Windows.{IsLaid, windows};
    ghost use Rattle.std.specs.Vec.{vec_capacity};

    ghost Value = { Calls };

    ghost view = { λ l. record { locals = windows l.stride l.bytes 0 l.lens.items; stride = l.stride } };

    ghost invariant = { λ l. IsLaid l.stride (length l.bytes) (vec_capacity l.lens) l.lens.items };
}

impl Locals {
    /// Room for the locals of every call, each up to the stride.
    pub fn new(alloc: Global, stride: u32) -> Result<Locals, NoMemory>
        requires { 65 * stride < 2 ^ 32 }
        ensures { IfOk result (λ l. l ≡ record { locals = []; stride = stride }) }
    {
        let bytes = Image::new(alloc, DEPTHS * stride)?;
        let lens = Vec::with_capacity(alloc, DEPTHS as usize)?;
        Ok(Locals {
            bytes,
            lens,
            stride,
        })
    }

    /// How many calls there are, with the program's body.
    #[inline]
    pub fn depth(&self) -> u32
        ensures value { result ≡ length self.now.locals }
        ensures within { result ≤ 65 }
    {
        self.lens.len() as u32
    }

    /// How many bytes the call has.
    #[inline]
    pub fn len_at(&self, depth: u32) -> Option<u32>
        ensures { result ≡ option_map length (slice_get self.now.locals depth) }
    {
        if (depth as usize) < self.lens.len() {
            Some(self.lens[depth as usize])
        } else {
            None
        }
    }

    #[inline]
    pub fn read(&self, e: Elem, depth: u32, offset: u32) -> i128
        requires depth { depth < length self.now.locals }
        requires within { offset + kinds.bytes e ≤ length (slice_index_or self.now.locals depth []) }
        ensures { result ≡ value_at e (slice_index_or self.now.locals depth []) offset }
    {
        self.bytes.read(e, depth * self.stride + offset)
    }

    #[inline]
    pub fn part(&self, depth: u32, offset: u32, len: u32) -> &[u8]
        requires depth { depth < length self.now.locals }
        requires within { offset + len ≤ length (slice_index_or self.now.locals depth []) }
        ensures { result.now ≡ slice_range (slice_index_or self.now.locals depth []) offset (offset + len) }
    {
        self.bytes.part(depth * self.stride + offset, len)
    }

    #[inline]
    pub fn write(&mut self, e: Elem, depth: u32, offset: u32, v: i128)
        requires fits { Fits e v }
        requires depth { depth < length self.old.locals }
        requires within { offset + kinds.bytes e ≤ length (slice_index_or self.old.locals depth []) }
        ensures { self.new ≡ record { locals = slice_set self.old.locals depth (written e (slice_index_or self.old.locals depth []) offset v); stride = self.old.stride } }
    {
        let at = depth * self.stride + offset;
        self.bytes.write(e, at, v);
    }

    #[inline]
    pub fn fill(&mut self, depth: u32, offset: u32, bytes: &[u8])
        requires depth { depth < length self.old.locals }
        requires within { offset + length bytes.now ≤ length (slice_index_or self.old.locals depth []) }
        ensures { self.new ≡ record { locals = slice_set self.old.locals depth (replaced (slice_index_or self.old.locals depth []) offset bytes.now); stride = self.old.stride } }
    {
        let at = depth * self.stride + offset;
        self.bytes.fill_from(at, bytes);
    }

    #[inline]
    pub fn copy(&mut self, to: u32, to_offset: u32, from: u32, from_offset: u32, len: u32)
        requires to { to < length self.old.locals }
        requires from { from < length self.old.locals }
        requires target { to_offset + len ≤ length (slice_index_or self.old.locals to []) }
        requires source { from_offset + len ≤ length (slice_index_or self.old.locals from []) }
        ensures { self.new ≡ record { locals = slice_set self.old.locals to (replaced (slice_index_or self.old.locals to []) to_offset (slice_range (slice_index_or self.old.locals from []) from_offset (from_offset + len))); stride = self.old.stride } }
    {
        let target = to * self.stride + to_offset;
        let source = from * self.stride + from_offset;
        self.bytes.copy_within_image(target, source, len);
    }

    /// Begins a call with so many bytes, all 0.
    #[inline]
    pub fn push(&mut self, len: u32)
        requires depth { length self.old.locals < 65 }
        requires short { len ≤ self.old.stride }
        ensures { self.new ≡ record { locals = self.old.locals ++ replicate len 0 ∷ []; stride = self.old.stride } }
    {
        let at = self.lens.len() as u32 * self.stride;
        self.bytes.part_mut(at, len).fill(0);
        match self.lens.push(len) {
            Ok(()) => {}
            Err(_) => unreachable!(),
        }
    }

    #[inline]
    pub fn clear(&mut self)
        ensures { self.new ≡ record { locals = []; stride = self.old.stride } }
    {
        self.lens.clear();
    }

    #[inline]
    pub fn pop(&mut self)
        ensures { self.new ≡ record { locals = take (length self.old.locals - 1) self.old.locals; stride = self.old.stride } }
    {
        let _ = self.lens.pop();
    }
}
