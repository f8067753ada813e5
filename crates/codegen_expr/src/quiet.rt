//! Which expressions call nothing, so that they change nothing.

ghost use Rattle.std.specs.Prelude.{◌≡◌, false, true, MatchOption};
ghost use Rattle.st_tree.specs.Expression.{arguments_of, expression_of, expressions_of, place_of, selector_of, selectors_of, tail_of, tails_of};
ghost use Rattle.st_meaning.specs.Call.{callee_of as callee};
ghost use Rattle.code_rules.specs.Code.{are_quiet, is_conversion as conversion, is_quiet, is_source, operand_is_quiet, step_is_quiet, tails_are_quiet, way_is_quiet};
ghost use Rattle.codegen_expr.specs.Sources.{IsSource};

use call_steps::callee_of;
use codegen_parts::is_conversion;
use st_tree::{Argument, Expr, Note, Place, Selector, Tail};

/// Whether selectors call nothing.
#[cycle(quiet)]
pub fn way_is_quiet(selectors: &[Selector<Note>]) -> bool
    ensures { result ≡ way_is_quiet (selectors_of selectors.now) }
{
    for selector in selectors {
        if !step_is_quiet(selector) {
            return false;
        }
    }
    true
}

#[cycle(quiet)]
#[tactic(auto, using(st_tree::specs::Expression::expression_views))]
fn step_is_quiet(selector: &Selector<Note>) -> bool
    ensures { result ≡ step_is_quiet (selector_of selector.now) }
{
    match selector {
        Selector::Field(_, _) => true,
        Selector::Index(_, indices) => are_quiet(indices.as_slice()),
        Selector::Target(_) => true,
    }
}

#[cycle(quiet)]
fn are_quiet(indices: &[Expr<Note>]) -> bool
    ensures { result ≡ are_quiet (expressions_of indices.now) }
{
    for index in indices {
        if !is_quiet(index) {
            return false;
        }
    }
    true
}

#[cycle(quiet)]
#[tactic(auto, using(st_tree::specs::Expression::expression_views))]
fn is_quiet(e: &Expr<Note>) -> bool
    ensures { result ≡ is_quiet (expression_of e.now) }
{
    match e {
        Expr::Int(_, _) => true,
        Expr::Typed(_, _, _) => true,
        Expr::Time(_, _) => true,
        Expr::True(_) => true,
        Expr::False(_) => true,
        Expr::Null(_) => true,
        Expr::Place(_, place) => place_is_quiet(place),
        Expr::Call(_, place, arguments) => {
            converts(place) && operand_is_quiet(arguments.as_slice())
        }
        Expr::Enumerator(_, _, _, _) => true,
        Expr::Ref(_, place) => place_is_quiet(place),
        Expr::Now(_) => true,
        Expr::Paren(_, inner) => is_quiet(inner.get()),
        Expr::Not(_, inner) => is_quiet(inner.get()),
        Expr::Negate(_, inner) => is_quiet(inner.get()),
        Expr::Chain(_, first, tails) => is_quiet(first.get()) && tails_are_quiet(tails.as_slice()),
    }
}

#[cycle(quiet)]
#[tactic(auto, using(st_tree::specs::Expression::expression_views))]
fn place_is_quiet(place: &Place<Note>) -> bool
    ensures { result ≡ way_is_quiet (place_of place.now).1 }
{
    way_is_quiet(place.selectors.as_slice())
}

/// Whether what stands before arguments is a conversion.
#[tactic(auto, using(st_tree::specs::Expression::expression_views))]
fn converts(place: &Place<Note>) -> bool
    ensures { result ≡ conversion (callee (place_of place.now).0 (place_of place.now).1) }
{
    is_conversion(callee_of(&place.root, place.selectors.as_slice()))
}

#[cycle(quiet)]
#[tactic(auto, using(st_tree::specs::Expression::expression_views))]
fn tail_is_quiet(tail: &Tail<Note>) -> bool
    ensures { result ≡ is_quiet (tail_of tail.now).2 }
{
    is_quiet(&tail.operand)
}

#[cycle(quiet)]
fn tails_are_quiet(tails: &[Tail<Note>]) -> bool
    ensures { result ≡ tails_are_quiet (tails_of tails.now) }
{
    for tail in tails {
        if !tail_is_quiet(tail) {
            return false;
        }
    }
    true
}

#[cycle(quiet)]
#[tactic(auto, using(st_tree::specs::Expression::expression_views))]
fn operand_is_quiet(arguments: &[Argument<Note>]) -> bool
    ensures { result ≡ operand_is_quiet (arguments_of arguments.now) }
{
    match arguments.first() {
        Some(first) => match first {
            Argument::Positional(value) => is_quiet(value),
            Argument::Input(_, _, _) => false,
            Argument::Output(_, _, _, _) => false,
        },
        None => false,
    }
}

/// The place that an expression in parentheses is.
#[tactic(auto, using(st_tree::specs::Expression::expression_views))]
pub fn source(e: &Expr<Note>) -> Option<&Place<Note>>
    ensures { MatchOption result (is_source (expression_of e.now) ≡ false) (λ place. IsSource (expression_of e.now) (place_of place.now).0 (place_of place.now).1) }
{
    match e {
        Expr::Place(_, place) => Some(place),
        Expr::Paren(_, inner) => source(inner.get()),
        Expr::Int(_, _) => None,
        Expr::Typed(_, _, _) => None,
        Expr::Time(_, _) => None,
        Expr::True(_) => None,
        Expr::False(_) => None,
        Expr::Null(_) => None,
        Expr::Call(_, _, _) => None,
        Expr::Enumerator(_, _, _, _) => None,
        Expr::Ref(_, _) => None,
        Expr::Now(_) => None,
        Expr::Not(_, _) => None,
        Expr::Negate(_, _) => None,
        Expr::Chain(_, _, _) => None,
    }
}
