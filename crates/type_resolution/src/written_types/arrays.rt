//! Arrays in one another.

ghost use Rattle.std.specs.Prelude.{◌≡◌, Some, IfOk};
ghost use Rattle.st_tree.specs.Expression.{expression_of};
ghost use Rattle.st_unit_rules.specs.declared_names.WrittenTypes as written;
ghost use Rattle.type_resolution.specs.written_types.Private.Values as own;

use crate::written_types::values::bound_value;
use name_resolution::Scope;
use plc_text::NoMemory;
use st_tree::{ArraySpec, Bounds};
use st_types::{Boxed, StType};
use st_unit_rules::declared_names::has_fewer_dimensions;
use std::alloc::Global;

/// Of a type with more dimensions than these, the innermost are told.
const DIMENSIONS_TOLD: u32 = 66;

/// An array between two bounds, where it can be told.
pub fn array_of(
    alloc: Global,
    low: Option<i128>,
    high: Option<i128>,
    of: StType,
) -> Result<Option<StType>, NoMemory>
    ensures { IfOk result (λ t. t ≡ written.array_of low high (Some of)) }
{
    let Some(low) = low else {
        return Ok(None);
    };
    let Some(high) = high else {
        return Ok(None);
    };
    if low > high {
        return Ok(None);
    }
    if !has_fewer_dimensions(&of, DIMENSIONS_TOLD) {
        return Ok(Some(of));
    }
    let of = Boxed::new(alloc, of)?;
    Ok(Some(StType::Array(low, high, of)))
}

/// A type in one more dimension, where it can be told.
fn in_dimension(
    alloc: Global,
    s: &Scope<'_>,
    bounds: &Bounds<u32>,
    of: Option<StType>,
) -> Result<Option<StType>, NoMemory>
    ensures { IfOk result (λ t. t ≡ written.array_of (written.bound_value s.now (expression_of bounds.now.low)) (written.bound_value s.now (expression_of bounds.now.high)) of) }
{
    match of {
        None => Ok(None),
        Some(of) => {
            let low = bound_value(alloc, s, &bounds.low)?;
            let high = bound_value(alloc, s, &bounds.high)?;
            let kind = array_of(alloc, low, high, of)?;
            Ok(kind)
        }
    }
}

/// A type in these dimensions, the outermost first.
fn in_dimensions(
    alloc: Global,
    s: &Scope<'_>,
    bounds: &[Bounds<u32>],
    of: Option<StType>,
) -> Result<Option<StType>, NoMemory>
    ensures { IfOk result (λ t. t ≡ written.arrays_of s.now bounds.now of) }
{
    let mut kind = of;
    let mut left = bounds;
    'dimensions: while let Some((dimension, before)) = left.split_last() {
        kind = in_dimension(alloc, s, dimension, kind)?;
        left = before;
    }
    Ok(kind)
}

/// A type in these arrays, the outermost first.
pub fn in_arrays(
    alloc: Global,
    s: &Scope<'_>,
    arrays: &[ArraySpec<u32>],
    of: Option<StType>,
) -> Result<Option<StType>, NoMemory>
    ensures { IfOk result (λ t. t ≡ written.arrays_of s.now (own.bounds_of arrays.now) of) }
{
    let mut kind = of;
    let mut left = arrays;
    'arrays: while let Some((array, before)) = left.split_last() {
        kind = in_dimensions(alloc, s, array.bounds.as_slice(), kind)?;
        left = before;
    }
    Ok(kind)
}
