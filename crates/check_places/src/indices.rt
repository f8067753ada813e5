//! What stands behind indices. Here they count by their number alone.

ghost use Rattle.std.specs.Prelude.{◌≡◌, ℕ, suc};
ghost use Rattle.st_tree.specs.Expression.{expressions_of};
ghost use Rattle.st_rules.specs.Faults.{least};
ghost use Rattle.st_rules.specs.Places as places;
ghost use Rattle.check_places.specs.Standing.{standing};
ghost use Rattle.check_places.specs.Private.Indices.{indexing};

use crate::standing::{Standing, element_of, index_fault};
use plc_text::Code;
use st_rules::earlier;
use st_tree::Expr;

/// What stands behind the indices.
pub fn indexed<'a>(b: Standing<'a>, indices: &[Expr<u32>]) -> Standing<'a>
    ensures { places.standing_type (standing result) ≡ places.indexed (places.count_expressions (expressions_of indices.now)) (places.standing_type (standing b.entry)) }
{
    let mut at = b;
    'indices: for _ in indices {
        at = element_of(at);
    }
    at
}

/// What stands behind the indices so far, and an index behind what is no array.
#[derive(Clone, Copy)]
pub struct Indexing<'a> {
    pub standing: Standing<'a>,
    pub fault: Option<(Code, u32)>,
}

#[tactic(auto, using(crate::proofs::Joins::joins))]
fn one_index(line: u32, so_far: Indexing<'_>) -> Indexing<'_>
    ensures { (n : ℕ) → indexing line result n ≡ indexing line so_far.entry (suc n) }
{
    Indexing {
        standing: element_of(so_far.standing),
        fault: earlier(so_far.fault, index_fault(line, so_far.standing)),
    }
}

/// An index behind what is no array.
#[tactic(auto, using(st_rules::proofs::FaultLaws::faults))]
pub fn indices_fault(line: u32, b: Standing<'_>, indices: &[Expr<u32>]) -> Option<(Code, u32)>
    ensures { result ≡ least (places.indices_on_no_array line (places.count_expressions (expressions_of indices.now)) (places.standing_type (standing b.entry))) }
{
    let mut so_far = Indexing {
        standing: b,
        fault: None,
    };
    'indices: for _ in indices {
        so_far = one_index(line, so_far);
    }
    so_far.fault
}
