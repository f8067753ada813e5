//! Bounds of arrays.

ghost use Rattle.std.specs.Prelude.{◌≡◌, IfOk};
ghost use Rattle.st_tree.specs.Expression.{expression_of};
ghost use Rattle.check_declared_variables.specs.type_rules.Private.Bounds.{bound_found, lies_above, IsBound, BoundChecks, IsDimension, DimensionChecks};

use check_initial_values::with_value;
use check_nodes::line_of;
use constant_folding::names_are_told;
use name_resolution::Scope;
use plc_text::{Code, NoMemory};
use st_check_expr::{Constant, check_constant};
use st_operators::{index_fault, is_number};
use st_rules::{Asked, earlier, when};
use st_tree::{Bounds, Expr, Note};
use std::alloc::Global;
use type_resolution::written_types::is_number_type;

/// A bound of an array, checked.
pub struct CheckedBound {
    /// Where it is an integer or a bit string that can be told.
    pub value: Option<i128>,
    pub least: Option<(Code, u32)>,
    pub tree: Expr<Note>,
}

// By hand, so that a drop is one call: a derived one is written out wherever a `?` may need it.
impl Drop for CheckedBound {
    fn drop(self) {
        drop(self.into_tree());
    }
}

impl CheckedBound {
    /// The typed tree alone.
    fn into_tree(self) -> Expr<Note>
        ensures { result ≡ self.tree }
    {
        let CheckedBound {
            value: _,
            least: _,
            tree,
        } = self;
        tree
    }
}

/// A dimension of an array, checked.
pub struct CheckedDimension {
    pub low: Option<i128>,
    pub high: Option<i128>,
    pub least: Option<(Code, u32)>,
    pub bounds: Bounds<Note>,
}

impl Drop for CheckedDimension {
    fn drop(self) {
        drop(self.into_bounds());
    }
}

impl CheckedDimension {
    /// The typed bounds alone.
    pub fn into_bounds(self) -> Bounds<Note>
        ensures { result ≡ self.bounds }
    {
        let CheckedDimension {
            low: _,
            high: _,
            least: _,
            bounds,
        } = self;
        bounds
    }
}

/// What a bound comes to, where it is an integer or a bit string, and all its names are told.
fn bound_found(is_number: bool, told: bool, number: Option<i128>) -> Option<i128>
    ensures { result ≡ bound_found is_number told number }
{
    if is_number && told { number } else { None }
}

/// A bound at this line, whose names are all told or not.
fn bound_of(line: u32, told: bool, c: Constant) -> CheckedBound
    ensures { IsBound result line told c }
{
    let found = bound_found(is_number_type(&c.told), told, c.number);
    let least = earlier(c.least, index_fault(line, &c.told));
    let value = c.value;
    CheckedBound {
        value: found,
        least,
        tree: with_value(c.into_tree(), value),
    }
}

fn check_bound(alloc: Global, s: &Scope<'_>, e: &Expr<u32>) -> Result<CheckedBound, NoMemory>
    ensures { IfOk result (λ b. BoundChecks b s.now (expression_of e.now)) }
{
    let told = names_are_told(s, e);
    let c = check_constant(alloc, s, e, &Asked::Anything)?;
    Ok(bound_of(line_of(e), told, c))
}

/// Whether a lower bound lies above an upper one.
fn lies_above(low: Option<i128>, high: Option<i128>) -> bool
    ensures { result ≡ lies_above low high }
{
    match low {
        Some(low) => match high {
            Some(high) => low > high,
            None => false,
        },
        None => false,
    }
}

/// A dimension whose lower bound stands at this line.
fn dimension_of(line: u32, low: CheckedBound, high: CheckedBound) -> CheckedDimension
    ensures { IsDimension result line low high }
{
    let above = when(lies_above(low.value, high.value), Code::E13, line);
    CheckedDimension {
        low: low.value,
        high: high.value,
        least: earlier(earlier(low.least, high.least), above),
        bounds: Bounds {
            low: low.into_tree(),
            high: high.into_tree(),
        },
    }
}

/// Checks the bounds of one dimension.
pub fn check_dimension(
    alloc: Global,
    s: &Scope<'_>,
    bounds: &Bounds<u32>,
) -> Result<CheckedDimension, NoMemory>
    ensures { IfOk result (λ d. DimensionChecks d s.now bounds.now) }
{
    let low = check_bound(alloc, s, &bounds.low)?;
    let high = check_bound(alloc, s, &bounds.high)?;
    Ok(dimension_of(line_of(&bounds.low), low, high))
}
