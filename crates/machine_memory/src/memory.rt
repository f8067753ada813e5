//! Reads, writes and copies at addresses.

ghost use Rattle.std.specs.Prelude.{◌≡◌, ◌+◌, length, slice_range, slice_set, Some, IfOk, IfErr};
ghost use Rattle.st_types.specs.Range.{Fits};
ghost use Rattle.stack_code.specs.Memory.{read as read_at, write as write_at, copy as copy_at, image_at};
ghost use Rattle.stack_code.specs.Steps.{asks};
ghost use Rattle.mem_image.specs.Image.{replaced};
ghost use Rattle.machine_memory.specs.Answers.{settled, stored};
ghost use Rattle.machine_memory.specs.Private.There.{image_or, region_or, IsThere};

use crate::locals::Locals;
use mem_image::Regions;
use st_types::Elem;
use stack_code::{Address, Ending, Space};

/// The value of the kind at the address.
#[inline]
pub fn read(e: Elem, regions: &Regions, locals: &Locals, a: Address) -> Result<i128, Ending>
    ensures value { read_at e (record { regions = regions.now; locals = locals.now.locals }) a ≡ settled result }
    ensures fits { IfOk result (λ v. Fits e v) }
{
    match a.space {
        Space::Regions => {
            if a.index >= regions.len() {
                return Err(Ending::Stuck);
            }
            let Some(image) = regions.at(a.index) else {
                return Err(Ending::Stuck);
            };
            if a.offset as u64 + e.bytes() as u64 > image.len() as u64 {
                return Err(Ending::Stuck);
            }
            Ok(image.read(e, a.offset))
        }
        Space::Locals => {
            let Some(len) = locals.len_at(a.index) else {
                return Err(Ending::Stuck);
            };
            if a.offset as u64 + e.bytes() as u64 > len as u64 {
                return Err(Ending::Stuck);
            }
            Ok(locals.read(e, a.index, a.offset))
        }
    }
}

/// Writes the value of the kind at the address.
#[inline]
pub fn write(
    e: Elem,
    regions: &mut Regions,
    locals: &mut Locals,
    a: Address,
    v: i128,
) -> Result<(), Ending>
    requires { Fits e v }
    ensures value { write_at e (record { regions = regions.old; locals = locals.old.locals }) a v ≡ stored result (record { regions = regions.new; locals = locals.new.locals }) }
    ensures stride { locals.new.stride ≡ locals.old.stride }
    ensures stuck { IfErr result (λ e. e ≡ Ending.Stuck) }
{
    match a.space {
        Space::Regions => {
            if a.index >= regions.len() {
                return Err(Ending::Stuck);
            }
            let Some(image) = regions.at_mut(a.index) else {
                return Err(Ending::Stuck);
            };
            if a.offset as u64 + e.bytes() as u64 > image.len() as u64 {
                return Err(Ending::Stuck);
            }
            image.write(e, a.offset, v);
            Ok(())
        }
        Space::Locals => {
            let Some(len) = locals.len_at(a.index) else {
                return Err(Ending::Stuck);
            };
            if a.offset as u64 + e.bytes() as u64 > len as u64 {
                return Err(Ending::Stuck);
            }
            locals.write(e, a.index, a.offset, v);
            Ok(())
        }
    }
}

/// Copies n bytes between two addresss, which may overlap.
pub fn copy(
    n: u32,
    regions: &mut Regions,
    locals: &mut Locals,
    source: Address,
    target: Address,
) -> Result<(), Ending>
    ensures value { copy_at n (record { regions = regions.old; locals = locals.old.locals }) source target ≡ stored result (record { regions = regions.new; locals = locals.new.locals }) }
    ensures stride { locals.new.stride ≡ locals.old.stride }
    ensures stuck { IfErr result (λ e. e ≡ Ending.Stuck) }
{
    if !holds(regions, locals, source, n) {
        return Err(Ending::Stuck);
    }
    if !holds(regions, locals, target, n) {
        return Err(Ending::Stuck);
    }
    match (source.space, target.space) {
        (Space::Locals, Space::Locals) => {
            locals.copy(target.index, target.offset, source.index, source.offset, n);
        }
        (Space::Locals, Space::Regions) => {
            let part = locals.part(source.index, source.offset, n);
            fill_region(regions, target.index, target.offset, part);
        }
        (Space::Regions, Space::Locals) => {
            let part = region_part(regions, source.index, source.offset, n);
            locals.fill(target.index, target.offset, part);
        }
        (Space::Regions, Space::Regions) => {
            copy_regions(
                n,
                regions,
                source.index,
                source.offset,
                target.index,
                target.offset,
            );
        }
    }
    Ok(())
}

/// Whether n bytes lie at the address.
#[inline]
fn holds(regions: &Regions, locals: &Locals, a: Address, n: u32) -> bool
    ensures { image_at (record { regions = regions.now; locals = locals.now.locals }) a n ≡ asks result (image_or (record { regions = regions.now; locals = locals.now.locals }) a.space a.index) }
{
    match a.space {
        Space::Regions => {
            if a.index >= regions.len() {
                return false;
            }
            let Some(image) = regions.at(a.index) else {
                return false;
            };
            a.offset as u64 + n as u64 <= image.len() as u64
        }
        Space::Locals => {
            let Some(len) = locals.len_at(a.index) else {
                return false;
            };
            a.offset as u64 + n as u64 <= len as u64
        }
    }
}

/// The bytes of a region that is there.
#[inline]
fn region_part(regions: &Regions, region: u32, offset: u32, n: u32) -> &[u8]
    requires { IsThere regions.now region (offset + n) }
    ensures { result.now ≡ slice_range (region_or regions.now region) offset (offset + n) }
{
    match regions.at(region) {
        Some(image) => image.part(offset, n),
        None => unreachable!(),
    }
}

/// Writes the bytes into a region that is there.
#[inline]
fn fill_region(regions: &mut Regions, region: u32, offset: u32, bytes: &[u8])
    requires { IsThere regions.old region (offset + length bytes.now) }
    ensures { regions.new ≡ slice_set regions.old region (Some (replaced (region_or regions.old region) offset bytes.now)) }
{
    match regions.at_mut(region) {
        Some(image) => image.fill_from(offset, bytes),
        None => unreachable!(),
    }
}

/// Copies n bytes between regions that are there.
fn copy_regions(n: u32, regions: &mut Regions, from: u32, from_offset: u32, to: u32, to_offset: u32)
    requires source { IsThere regions.old from (from_offset + n) }
    requires target { IsThere regions.old to (to_offset + n) }
    ensures { regions.new ≡ slice_set regions.old to (Some (replaced (region_or regions.old to) to_offset (slice_range (region_or regions.old from) from_offset (from_offset + n)))) }
{
    if from == to {
        match regions.at_mut(to) {
            Some(image) => image.copy_within_image(to_offset, from_offset, n),
            None => unreachable!(),
        }
    } else {
        let Some(image) = regions.take(from) else {
            unreachable!()
        };
        fill_region(regions, to, to_offset, image.part(from_offset, n));
        regions.put(from, image);
    }
}
