//! The rules of one selector.

ghost use Rattle.std.specs.Prelude.{◌≡◌, ◌++◌};
ghost use Rattle.std.specs.Option.{is_none};
ghost use Rattle.st_tree.specs.Expression.{selector_of, expressions_of};
ghost use Rattle.st_rules.specs.Faults.{least};
ghost use Rattle.st_rules.specs.Scope.{Scope as AScope};
ghost use Rattle.st_rules.specs.Places as places;
ghost use Rattle.check_places.specs.Standing.{standing, parted};

use crate::access::part_out_of_access;
use crate::indices::indices_fault;
use crate::parts::part_of;
use crate::standing::{Part, Standing, dereference_fault, is_told, super_fault};
use name_resolution::Scope;
use plc_text::Code;
use st_rules::{earlier, when};
use st_tree::{Expr, Selector};

/// A name that is not found behind what is told.
fn part_not_found(line: u32, b: Standing<'_>, p: Option<Part<'_>>) -> Option<(Code, u32)>
    ensures { (s : AScope) → result ≡ least (places.part_not_found s line (standing b.entry) (parted p.entry)) }
{
    if is_told(b) {
        when(is_nothing(p), Code::E05, line)
    } else {
        None
    }
}

fn is_nothing(p: Option<Part<'_>>) -> bool
    ensures { result ≡ is_none (parted p.entry) }
{
    match p {
        Some(_) => false,
        None => true,
    }
}

#[tactic(auto, using(st_rules::proofs::FaultLaws::faults), unfolding(st_rules::specs::Places::part_faults))]
fn part_fault(s: &Scope<'_>, line: u32, b: Standing<'_>, p: Option<Part<'_>>) -> Option<(Code, u32)>
    ensures { result ≡ least (places.part_faults s.now line (standing b.entry) (parted p.entry)) }
{
    earlier(part_not_found(line, b, p), part_out_of_access(s, line, p))
}

#[tactic(auto, using(st_rules::proofs::FaultLaws::faults))]
fn index_fault(line: u32, b: Standing<'_>, indices: &[Expr<u32>]) -> Option<(Code, u32)>
    ensures { result ≡ least (places.super_without_base line (standing b.entry) ++ places.indices_on_no_array line (places.count_expressions (expressions_of indices.now)) (places.standing_type (standing b.entry))) }
{
    earlier(super_fault(line, b), indices_fault(line, b, indices))
}

/// The rules of one selector, where a call stands behind it or not, but those of its indices themselves. The line is that of the place's
/// first token.
#[tactic(auto, using(st_tree::specs::Expression::expression_views), unfolding(st_rules::specs::Places::selector_faults))]
pub fn selector_fault(
    s: &Scope<'_>,
    line: u32,
    called: bool,
    b: Standing<'_>,
    selector: &Selector<u32>,
) -> Option<(Code, u32)>
    ensures { result ≡ least (places.selector_faults s.now line called (standing b.entry) (selector_of selector.now)) }
{
    match selector {
        Selector::Field(l, name) => part_fault(s, *l, b, part_of(s, b, called, name)),
        Selector::Index(_, indices) => index_fault(line, b, indices.as_slice()),
        Selector::Target(_) => dereference_fault(line, b),
    }
}
