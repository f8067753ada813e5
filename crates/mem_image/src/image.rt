//! Images: the bytes that hold a program's values.

ghost use Rattle.std.specs.Prelude.{◌≡◌, ◌+◌, ◌<◌, ◌≤◌, ◌↔◌, [], length, replicate, slice_range, All, IsTrue, IfOk};
ghost use Rattle.std.specs.Borrow.{sem};
ghost use Rattle.st_types.specs.Elem as kinds;
ghost use Rattle.st_types.specs.Range.{Fits};
ghost use Rattle.mem_image.specs.Image.{replaced, value_at, written};
ghost use Rattle.mem_image.specs.ImageLoans.{LendsPart};

use crate::words::{low_1, low_2, low_4, low_8, value};
use plc_text::NoMemory;
use st_types::Elem;
use std::alloc::Global;
use std::marker::Model;

/// The bytes of a region, as many as when it was made. A contract sees it as the list of them.
#[derive(Debug, Drop)]
pub struct Image {
    bytes: Vec<u8>,
}

impl Model for Image {
    ghost use Rattle.std.specs.Prelude.{ℕ, List, ◌^◌, ◌<◌, length};

    ghost Value = { List ℕ };

    ghost view = { λ a. a.bytes.items };

    ghost invariant = { λ a. length a.bytes.items < 2 ^ 32 };
}

impl Image {
    /// An image of that many bytes, each of them 0.
    pub fn new(alloc: Global, bytes: u32) -> Result<Image, NoMemory>
        ensures { IfOk result (λ image. image ≡ replicate bytes 0) }
    {
        let bytes = vec![in alloc; 0; bytes as usize]?;
        Ok(Image { bytes })
    }

    /// How many bytes there are.
    #[inline]
    pub fn len(&self) -> u32
        ensures len { result ≡ length self.now }
        ensures bytes { All (λ byte. byte < 256) self.now }
    {
        let bytes = self.bytes.as_slice();
        bytes.len() as u32
    }

    #[inline]
    pub fn is_empty(&self) -> bool
        ensures { IsTrue result ↔ (self.now ≡ []) }
    {
        self.bytes.is_empty()
    }

    /// The value of the kind at the offset. Of a BOOL's byte the lowest bit counts.
    #[inline]
    pub fn read(&self, e: Elem, offset: u32) -> i128
        requires { offset + kinds.bytes e ≤ length self.now }
        ensures { result ≡ value_at e self.now offset }
    {
        value(self.bytes.as_slice(), e, offset as usize)
    }

    /// Writes the value of the kind at the offset.
    #[inline]
    pub fn write(&mut self, e: Elem, offset: u32, v: i128)
        requires fits { Fits e v }
        requires within { offset + kinds.bytes e ≤ length self.old }
        ensures after { self.new ≡ written e self.old offset v }
        ensures len { length self.new ≡ length self.old }
    {
        match e {
            Elem::Bool | Elem::Sint | Elem::Usint | Elem::Byte => {
                self.fill_from(offset, &[low_1(v)])
            }
            Elem::Int | Elem::Uint | Elem::Word => {
                self.fill_from(offset, &low_2(v).to_le_bytes())
            }
            Elem::Dint | Elem::Udint | Elem::Dword | Elem::Time => {
                self.fill_from(offset, &low_4(v).to_le_bytes())
            }
            Elem::Lint | Elem::Ulint | Elem::Lword => {
                self.fill_from(offset, &low_8(v).to_le_bytes())
            }
        }
    }

    /// The `len` bytes from the offset on.
    #[inline]
    pub fn part(&self, offset: u32, len: u32) -> &[u8]
        requires { offset + len ≤ length self.now }
        ensures { result.now ≡ slice_range self.now offset (offset + len) }
    {
        let start = offset as usize;
        &self.bytes.as_slice()[start..start + len as usize]
    }

    /// The `len` bytes from the offset on, to be written.
    #[inline]
    pub fn part_mut(&mut self, offset: u32, len: u32) -> &mut [u8]
        requires { offset + len ≤ length self.old }
        ensures* writes_back { sem 𝓛 (LendsPart self.entry offset result) }
        ensures value { result.now ≡ slice_range self.old offset (offset + len) }
    {
        let start = offset as usize;
        let end = start + len as usize;
        self.bytes.slice_mut(start..end)
    }

    /// Writes the bytes over those from `to` on.
    #[inline]
    pub fn fill_from(&mut self, to: u32, bytes: &[u8])
        requires { to + length bytes.now ≤ length self.old }
        ensures after { self.new ≡ replaced self.old to bytes.now }
        ensures len { length self.new ≡ length self.old }
    {
        let start = to as usize;
        let end = start + bytes.len();
        self.bytes[start..end].copy_from_slice(bytes);
    }

    /// Writes the `len` bytes from `from` on over those from `to` on, also where the two overlap: what is written is
    /// what stood there before the call.
    #[inline]
    pub fn copy_within_image(&mut self, to: u32, from: u32, len: u32)
        requires target { to + len ≤ length self.old }
        requires source { from + len ≤ length self.old }
        ensures after { self.new ≡ replaced self.old to (slice_range self.old from (from + len)) }
        ensures len { length self.new ≡ length self.old }
    {
        let start = from as usize;
        self.bytes
            .copy_within(start..start + len as usize, to as usize);
    }

    /// Writes the `len` bytes of the other image from `from` on over those from `to` on.
    #[inline]
    pub fn copy_from(&mut self, to: u32, source: &Image, from: u32, len: u32)
        requires target { to + len ≤ length self.old }
        requires source { from + len ≤ length source.now }
        ensures after { self.new ≡ replaced self.old to (slice_range source.now from (from + len)) }
        ensures len { length self.new ≡ length self.old }
    {
        self.fill_from(to, source.part(from, len));
    }
}
