//! The dimensions of one array, the innermost first.

ghost use Rattle.std.specs.Prelude.{◌≡◌, IfOk, OnOk};
ghost use Rattle.st_rules.specs.Faults as faults;
ghost use Rattle.st_unit_rules.specs.declared_names.WrittenTypes as written;
ghost use Rattle.check_declared_variables.specs.type_rules.Private.Dimensions.{Surrounds, DimensionsFind};

use crate::type_rules::bounds::{CheckedDimension, check_dimension};
use name_resolution::Scope;
use plc_text::{Code, NoMemory};
use st_rules::earlier;
use st_tree::{Bounds, Note};
use st_types::StType;
use std::alloc::Global;
use type_resolution::written_types::array_of;

/// What is told of a type from some dimension on.
#[derive(Drop)]
pub struct Told {
    pub kind: Option<StType>,
    pub least: Option<(Code, u32)>,
}

/// Dimensions of an array so far, the last one first.
pub struct Dimensions {
    pub told: Told,
    pub bounds: Vec<Bounds<Note>>,
}

// By hand, so that a drop is one call: a derived one is written out wherever a `?` may need it.
impl Drop for Dimensions {
    fn drop(self) {
        let (told, bounds) = self.into_parts();
        drop(told);
        drop(bounds);
    }
}

impl Dimensions {
    /// What is told, and the typed bounds.
    pub fn into_parts(self) -> (Told, Vec<Bounds<Note>>)
        ensures { result ≡ (self.told, self.bounds) }
    {
        let Dimensions { told, bounds } = self;
        (told, bounds)
    }
}

/// An array between these bounds, where all is told.
fn around(
    alloc: Global,
    low: Option<i128>,
    high: Option<i128>,
    of: Option<StType>,
) -> Result<Option<StType>, NoMemory>
    ensures { IfOk result (λ t. t ≡ written.array_of low high of) }
{
    match of {
        Some(of) => {
            let kind = array_of(alloc, low, high, of)?;
            Ok(kind)
        }
        None => Ok(None),
    }
}

/// Puts one more dimension around what is told.
fn enclose(alloc: Global, told: &mut Told, dimension: &CheckedDimension) -> Result<(), NoMemory>
    ensures kind { OnOk result (told.new.kind ≡ written.array_of dimension.now.low dimension.now.high told.old.kind) }
    ensures least { OnOk result (told.new.least ≡ faults.earlier dimension.now.least told.old.least) }
{
    told.kind = around(alloc, dimension.low, dimension.high, told.kind.take())?;
    told.least = earlier(dimension.least, told.least);
    Ok(())
}

/// The dimensions with one more around.
fn with_dimension(
    alloc: Global,
    so_far: Dimensions,
    dimension: CheckedDimension,
) -> Result<Dimensions, NoMemory>
    ensures { IfOk result (λ x. Surrounds x so_far dimension) }
{
    let mut so_far = so_far;
    enclose(alloc, &mut so_far.told, &dimension)?;
    so_far.bounds.push(dimension.into_bounds())?;
    Ok(so_far)
}

/// Checks the dimensions of an array, around what is told of its elements.
pub fn check_dimensions(
    alloc: Global,
    s: &Scope<'_>,
    bounds: &[Bounds<u32>],
    inner: Told,
) -> Result<Dimensions, NoMemory>
    ensures { IfOk result (λ x. DimensionsFind x s.now bounds.now inner) }
{
    let mut so_far = Dimensions {
        told: inner,
        bounds: Vec::new(alloc),
    };
    let mut i = bounds.len();
    'dimensions: while i > 0 {
        i -= 1;
        let dimension = check_dimension(alloc, s, &bounds[i])?;
        so_far = with_dimension(alloc, so_far, dimension)?;
    }
    Ok(so_far)
}
