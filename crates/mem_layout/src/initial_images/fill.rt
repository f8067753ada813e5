//! Initial values written where they lie (IEC 61131-3:2013, 6.5.1.3 and 6.5.1.4).

ghost use Rattle.std.specs.Prelude.{◌≡◌, ◌+◌, ◌≤◌, ◌↔◌, ℕ, OnOk, IsTrue, length, option_map, slice_get};
ghost use Rattle.st_types.specs.Elem as kinds;
ghost use Rattle.st_types.specs.Range.{Fits};
ghost use Rattle.st_tree.specs.Initial.{initial_of, fields_of};
ghost use Rattle.mem_image.specs.Image.{written};
ghost use Rattle.st_values.specs.Initial as words;
ghost use Rattle.st_values.specs.View.{program_of};
ghost use Rattle.program_tables.specs.st_initial.Members.{Holds, items_at};
ghost use Rattle.program_tables.specs.st_initial.Variables.{variables_of};
ghost use Rattle.mem_layout.specs.initial_images.Private.Fill.{CanFill, CanFillElements, Filled, ElementsFilled, FieldsFilled};

use crate::Layout;
use mem_image::Image;
use plc_text::{Items, NoMemory};
use program_tables::{Members, Variable, elements_given, fields_given, given_for, number_given};
use st_tree::{FieldInit, Init, Note};
use st_types::{Elem, StType, fits};
use std::alloc::Global;

/// Whether a number of the kind at the offset lies within the image.
fn has_room(image: &Image, e: Elem, offset: u32) -> bool
    ensures { IsTrue result ↔ (offset + kinds.bytes e ≤ length image.now) }
{
    let len = image.len();
    match offset.checked_add(e.bytes()) {
        Some(end) => end <= len,
        None => false,
    }
}

/// Writes a number that is of the kind and whose bytes lie within the image.
fn put_number(image: &mut Image, e: Elem, offset: u32, v: i128)
    ensures { Fits e v → offset + kinds.bytes e ≤ length image.old → image.new ≡ written e image.old offset v }
{
    if fits(e, v) && has_room(image, e, offset) {
        image.write(e, offset, v);
    }
}

/// The value that is given to the element of this number.
fn given_at<'p>(givens: &[&'p Init<Note>], k: u32) -> Option<&'p Init<Note>>
    ensures { result ≡ slice_get givens.now k }
{
    givens.get(k as usize).copied()
}

/// Writes what a type begins with, from an offset on, into an image that has zeros there. It speaks of a type that unfolds within
/// the depth, to what has room there, and of numbers of their kinds; of other types it writes what it can.
#[cycle(fill)]
pub fn fill_type(
    alloc: Global,
    layout: &Layout,
    members: &Members<'_>,
    depth: u32,
    kind: &StType,
    given: Option<&Init<Note>>,
    offset: u32,
    image: &mut Image,
) -> Result<(), NoMemory>
    requires members { Holds (program_of layout.now) members.now }
    ensures { OnOk result (CanFill (program_of layout.now) depth kind.now (option_map (λ i. initial_of i.now) given.entry) offset image.old → Filled (program_of layout.now) depth kind.now (option_map (λ i. initial_of i.now) given.entry) offset image.old image.new) }
{
    match kind {
        StType::Elementary(e) => {
            put_number(image, *e, offset, number_given(given));
            Ok(())
        }
        StType::Enumeration(_) => {
            put_number(image, Elem::Udint, offset, number_given(given));
            Ok(())
        }
        StType::Reference(_) => Ok(()),
        StType::Interface(_) => Ok(()),
        StType::Array(_, _, of) => {
            if depth == 0 {
                return Ok(());
            }
            fill_elements(
                alloc,
                layout,
                members,
                depth - 1,
                of.get(),
                layout.size_of(kind),
                given,
                offset,
                image,
            )
        }
        StType::Structure(k) => {
            if depth == 0 {
                return Ok(());
            }
            fill_variables(
                alloc,
                layout,
                members,
                depth - 1,
                kind,
                members.structures.get(*k as usize),
                fields_given(given),
                offset,
                image,
            )
        }
        StType::Instance(c) => {
            if depth == 0 {
                return Ok(());
            }
            put_number(image, Elem::Ulint, offset, i128::from(*c));
            fill_variables(
                alloc,
                layout,
                members,
                depth - 1,
                kind,
                members.classes.get(*c as usize),
                fields_given(given),
                offset,
                image,
            )
        }
    }
}

/// Writes what elements begin with, one behind the other, as many as have so many bytes.
#[cycle(fill)]
fn fill_elements(
    alloc: Global,
    layout: &Layout,
    members: &Members<'_>,
    depth: u32,
    of: &StType,
    bytes: u32,
    given: Option<&Init<Note>>,
    offset: u32,
    image: &mut Image,
) -> Result<(), NoMemory>
    requires members { Holds (program_of layout.now) members.now }
    ensures { OnOk result ((many : ℕ) → CanFillElements (program_of layout.now) depth of.now many bytes (words.list_given (option_map (λ i. initial_of i.now) given.entry)) offset image.old → ElementsFilled (program_of layout.now) depth of.now many (words.list_given (option_map (λ i. initial_of i.now) given.entry)) offset image.old image.new) }
{
    let element = layout.size_of(of);
    if element == 0 {
        return Ok(());
    }
    let end = bytes / element;
    let givens = elements_given(alloc, given, end as usize)?;
    let mut at = offset;
    for k in 0..end {
        let given = given_at(&givens, k);
        fill_type(alloc, layout, members, depth, of, given, at, image)?;
        let Some(next) = at.checked_add(element) else {
            return Ok(());
        };
        at = next;
    }
    Ok(())
}

/// Writes what the variables of a structure or an instance begin with, where there are any, each where it lies.
#[cycle(fill)]
fn fill_variables(
    alloc: Global,
    layout: &Layout,
    members: &Members<'_>,
    depth: u32,
    kind: &StType,
    variables: Option<&Items<Variable<'_>>>,
    inits: &[FieldInit<Note>],
    offset: u32,
    image: &mut Image,
) -> Result<(), NoMemory>
    requires members { Holds (program_of layout.now) members.now }
    ensures { OnOk result (FieldsFilled (program_of layout.now) depth kind.now (variables_of (items_at (option_map (λ vs. vs.now) variables.entry))) (fields_of inits.now) offset image.old image.new) }
{
    let Some(variables) = variables else {
        return Ok(());
    };
    for (k, variable) in variables.as_slice().iter().enumerate() {
        let Ok(field) = u32::try_from(k) else {
            return Err(NoMemory);
        };
        let Some((from, _)) = layout.field_of(kind, field) else {
            return Ok(());
        };
        let Some(at) = offset.checked_add(from) else {
            return Ok(());
        };
        let given = match given_for(variable.name, inits) {
            Some(init) => Some(init),
            None => variable.initial,
        };
        fill_type(
            alloc,
            layout,
            members,
            depth,
            variable.kind,
            given,
            at,
            image,
        )?;
    }
    Ok(())
}
