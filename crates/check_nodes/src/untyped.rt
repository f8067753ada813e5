//! Expressions by themselves: whether they are untyped, and where they begin.

ghost use Rattle.std.specs.Prelude.{◌≡◌, ◌&&◌, false, MatchOption};
ghost use Rattle.st_tree.specs.Expression.{Int, expression_of, tail_of, tails_of};
ghost use Rattle.st_rules.specs.Kinds as kinds;
ghost use Rattle.st_rules.specs.Expressions as expressions;

use plc_text::Text;
use st_operators::is_arithmetic;
use st_tree::{Expr, Tail};

/// Whether it is an int, or an arithmetic operation over what is untyped.
#[cycle(untyped)]
pub fn is_untyped(e: &Expr<u32>) -> bool
    ensures { result ≡ expressions.is_untyped (expression_of e.now) }
{
    match e {
        Expr::Int(_, _) => true,
        Expr::Paren(_, inner) => is_untyped(inner.get()),
        Expr::Negate(_, inner) => is_untyped(inner.get()),
        Expr::Chain(_, first, tails) => {
            if is_untyped(first.get()) {
                are_untyped(tails.as_slice())
            } else {
                false
            }
        }
        Expr::Typed(_, _, _) => false,
        Expr::Time(_, _) => false,
        Expr::True(_) => false,
        Expr::False(_) => false,
        Expr::Null(_) => false,
        Expr::Place(_, _) => false,
        Expr::Call(_, _, _) => false,
        Expr::Enumerator(_, _, _, _) => false,
        Expr::Ref(_, _) => false,
        Expr::Now(_) => false,
        Expr::Not(_, _) => false,
    }
}

#[cycle(untyped)]
fn is_untyped_tail(tail: &Tail<u32>) -> bool
    ensures { result ≡ (kinds.is_arithmetic (tail_of tail.now).1 && expressions.is_untyped (tail_of tail.now).2) }
{
    if is_arithmetic(tail.operator) {
        is_untyped(&tail.operand)
    } else {
        false
    }
}

#[cycle(untyped)]
fn are_untyped(tails: &[Tail<u32>]) -> bool
    ensures { result ≡ expressions.are_untyped (tails_of tails.now) }
{
    for tail in tails {
        if !is_untyped_tail(tail) {
            return false;
        }
    }
    true
}

/// The line of the first token.
pub fn line_of(e: &Expr<u32>) -> u32
    ensures { result ≡ expressions.line_of (expression_of e.now) }
{
    match e {
        Expr::Int(line, _) => *line,
        Expr::Typed(line, _, _) => *line,
        Expr::Time(line, _) => *line,
        Expr::True(line) => *line,
        Expr::False(line) => *line,
        Expr::Null(line) => *line,
        Expr::Place(line, _) => *line,
        Expr::Call(line, _, _) => *line,
        Expr::Enumerator(line, _, _, _) => *line,
        Expr::Ref(line, _) => *line,
        Expr::Now(line) => *line,
        Expr::Paren(line, _) => *line,
        Expr::Not(line, _) => *line,
        Expr::Negate(line, _) => *line,
        Expr::Chain(line, _, _) => *line,
    }
}

/// Whether it is an int.
pub fn is_int(e: &Expr<u32>) -> bool
    ensures { result ≡ expressions.is_int (expression_of e.now) }
{
    match e {
        Expr::Int(_, _) => true,
        Expr::Typed(_, _, _) => false,
        Expr::Time(_, _) => false,
        Expr::True(_) => false,
        Expr::False(_) => false,
        Expr::Null(_) => false,
        Expr::Place(_, _) => false,
        Expr::Call(_, _, _) => false,
        Expr::Enumerator(_, _, _, _) => false,
        Expr::Ref(_, _) => false,
        Expr::Now(_) => false,
        Expr::Paren(_, _) => false,
        Expr::Not(_, _) => false,
        Expr::Negate(_, _) => false,
        Expr::Chain(_, _, _) => false,
    }
}

/// The line and the digits, of an int.
pub fn as_int(e: &Expr<u32>) -> Option<(u32, &Text)>
    ensures { MatchOption result (expressions.is_int (expression_of e.now) ≡ false) (λ x. expression_of e.now ≡ Int x.0 x.1.now) }
{
    match e {
        Expr::Int(line, digits) => Some((*line, digits)),
        Expr::Typed(_, _, _) => None,
        Expr::Time(_, _) => None,
        Expr::True(_) => None,
        Expr::False(_) => None,
        Expr::Null(_) => None,
        Expr::Place(_, _) => None,
        Expr::Call(_, _, _) => None,
        Expr::Enumerator(_, _, _, _) => None,
        Expr::Ref(_, _) => None,
        Expr::Now(_) => None,
        Expr::Paren(_, _) => None,
        Expr::Not(_, _) => None,
        Expr::Negate(_, _) => None,
        Expr::Chain(_, _, _) => None,
    }
}
