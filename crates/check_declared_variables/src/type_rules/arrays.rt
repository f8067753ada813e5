//! The arrays of a type, the innermost first.

ghost use Rattle.std.specs.Prelude.{◌≡◌, reverse, IfOk};
ghost use Rattle.check_declared_variables.specs.type_rules.Private.Arrays.{IsAround, AddsArray, ArraysFind};

use crate::type_rules::dimensions::{Told, check_dimensions};
use crate::type_rules::elements::noted;
use name_resolution::Scope;
use plc_text::{Items, NoMemory};
use st_tree::{ArraySpec, Bounds, Note};
use std::alloc::Global;

/// The arrays of a type so far, the last one first.
#[derive(Drop)]
pub struct Arrays {
    pub told: Told,
    pub arrays: Vec<ArraySpec<Note>>,
}

/// An array, and what is told of the type from there on.
#[derive(Drop)]
struct Around {
    told: Told,
    array: ArraySpec<Note>,
}

/// The bounds the other way round.
fn turned_bounds(alloc: Global, list: Vec<Bounds<Note>>) -> Result<Items<Bounds<Note>>, NoMemory>
    ensures { IfOk result (λ items. items ≡ reverse list.items) }
{
    let mut left = list;
    let mut items = Items::new(alloc);
    'items: while let Some(last) = left.pop() {
        items.push(last)?;
    }
    Ok(items)
}

/// The arrays the other way round.
pub fn turned_arrays(
    alloc: Global,
    list: Vec<ArraySpec<Note>>,
) -> Result<Items<ArraySpec<Note>>, NoMemory>
    ensures { IfOk result (λ items. items ≡ reverse list.items) }
{
    let mut left = list;
    let mut items = Items::new(alloc);
    'items: while let Some(last) = left.pop() {
        items.push(last)?;
    }
    Ok(items)
}

/// An array around what is told of its elements.
fn check_array(
    alloc: Global,
    s: &Scope<'_>,
    array: &ArraySpec<u32>,
    inner: Told,
) -> Result<Around, NoMemory>
    ensures { IfOk result (λ x. IsAround x s.now array.now inner) }
{
    let found = check_dimensions(alloc, s, array.bounds.as_slice(), inner)?;
    let note = noted(alloc, array.note, &found.told.kind)?;
    let (told, bounds) = found.into_parts();
    let bounds = turned_bounds(alloc, bounds)?;
    Ok(Around {
        told,
        array: ArraySpec { note, bounds },
    })
}

/// The arrays with one more around.
fn with_array(arrays: Vec<ArraySpec<Note>>, around: Around) -> Result<Arrays, NoMemory>
    ensures { IfOk result (λ x. AddsArray x arrays.items around) }
{
    let Around { told, array } = around;
    let mut arrays = arrays;
    arrays.push(array)?;
    Ok(Arrays { told, arrays })
}

/// Checks the arrays of a type, around what the innermost one is of.
pub fn check_arrays(
    alloc: Global,
    s: &Scope<'_>,
    arrays: &[ArraySpec<u32>],
    inner: Told,
) -> Result<Arrays, NoMemory>
    ensures { IfOk result (λ x. ArraysFind x s.now arrays.now inner) }
{
    let mut so_far = Arrays {
        told: inner,
        arrays: Vec::new(alloc),
    };
    let mut i = arrays.len();
    'arrays: while i > 0 {
        i -= 1;
        let Arrays {
            told,
            arrays: behind,
        } = so_far;
        let around = check_array(alloc, s, &arrays[i], told)?;
        so_far = with_array(behind, around)?;
    }
    Ok(so_far)
}
