//! The number of operators in an expression.

ghost use Rattle.std.specs.Prelude.{◌≡◌, ◌+◌, nat_lt};
ghost use Rattle.st_tree.specs.Expression.{expression_of, expressions_of, selector_of, selectors_of, argument_of, arguments_of, tail_of, tails_of};
ghost use Rattle.st_rules.specs.Faults.{least};
ghost use Rattle.st_rules.specs.Expressions as expressions;
ghost use Rattle.check_nodes.specs.Private.Count as own;

use crate::untyped::{is_int, line_of};
use plc_text::Code;
use st_rules::when;
use st_tree::{Argument, Expr, Selector, Tail};

/// How much of the room is left behind as many operators; nothing where there are more.
fn taken(room: usize, count: usize) -> Option<usize>
    ensures { own.Leaves result room count }
{
    if room < count {
        None
    } else {
        Some(room - count)
    }
}

/// How much of the room is left behind the operators of an expression; nothing where there are more.
#[cycle(count)]
fn expression_left(e: &Expr<u32>, room: usize) -> Option<usize>
    ensures { own.Leaves result room (expressions.operators (expression_of e.now)) }
{
    match e {
        Expr::Place(_, place) => selectors_left(place.selectors.as_slice(), room),
        Expr::Ref(_, place) => selectors_left(place.selectors.as_slice(), room),
        Expr::Call(_, place, arguments) => {
            let left = selectors_left(place.selectors.as_slice(), room)?;
            arguments_left(arguments.as_slice(), left)
        }
        Expr::Paren(_, inner) => expression_left(inner.get(), room),
        Expr::Not(_, inner) => {
            let left = taken(room, 1)?;
            expression_left(inner.get(), left)
        }
        Expr::Negate(_, inner) => {
            if is_int(inner.get()) {
                Some(room)
            } else {
                let left = taken(room, 1)?;
                expression_left(inner.get(), left)
            }
        }
        Expr::Chain(_, first, tails) => {
            let left = expression_left(first.get(), room)?;
            tails_left(tails.as_slice(), left)
        }
        Expr::Int(_, _) => Some(room),
        Expr::Typed(_, _, _) => Some(room),
        Expr::Time(_, _) => Some(room),
        Expr::True(_) => Some(room),
        Expr::False(_) => Some(room),
        Expr::Null(_) => Some(room),
        Expr::Enumerator(_, _, _, _) => Some(room),
        Expr::Now(_) => Some(room),
    }
}

#[cycle(count)]
fn tail_left(tail: &Tail<u32>, room: usize) -> Option<usize>
    ensures { own.Leaves result room (expressions.operators (tail_of tail.now).2 + 1) }
{
    let left = taken(room, 1)?;
    expression_left(&tail.operand, left)
}

#[cycle(count)]
fn tails_left(tails: &[Tail<u32>], room: usize) -> Option<usize>
    ensures { own.Leaves result room (expressions.tail_operators (tails_of tails.now)) }
{
    let mut left = room;
    for tail in tails {
        left = tail_left(tail, left)?;
    }
    Some(left)
}

#[cycle(count)]
fn indices_left(indices: &[Expr<u32>], room: usize) -> Option<usize>
    ensures { own.Leaves result room (expressions.index_operators (expressions_of indices.now)) }
{
    let mut left = room;
    for index in indices {
        left = expression_left(index, left)?;
    }
    Some(left)
}

#[cycle(count)]
fn selector_left(selector: &Selector<u32>, room: usize) -> Option<usize>
    ensures { own.Leaves result room (own.selector_count (selector_of selector.now)) }
{
    match selector {
        Selector::Index(_, indices) => indices_left(indices.as_slice(), room),
        Selector::Field(_, _) => Some(room),
        Selector::Target(_) => Some(room),
    }
}

#[cycle(count)]
fn selectors_left(selectors: &[Selector<u32>], room: usize) -> Option<usize>
    ensures { own.Leaves result room (expressions.selector_operators (selectors_of selectors.now)) }
{
    let mut left = room;
    for selector in selectors {
        left = selector_left(selector, left)?;
    }
    Some(left)
}

#[cycle(count)]
fn argument_left(argument: &Argument<u32>, room: usize) -> Option<usize>
    ensures { own.Leaves result room (own.argument_count (argument_of argument.now)) }
{
    match argument {
        Argument::Positional(value) => expression_left(value, room),
        Argument::Input(_, _, value) => expression_left(value, room),
        Argument::Output(_, _, _, place) => selectors_left(place.selectors.as_slice(), room),
    }
}

#[cycle(count)]
fn arguments_left(arguments: &[Argument<u32>], room: usize) -> Option<usize>
    ensures { own.Leaves result room (expressions.argument_operators (arguments_of arguments.now)) }
{
    let mut left = room;
    for argument in arguments {
        left = argument_left(argument, left)?;
    }
    Some(left)
}

fn has_more(e: &Expr<u32>, limit: usize) -> bool
    ensures { result ≡ nat_lt limit (expressions.operators (expression_of e.now)) }
{
    expression_left(e, limit).is_none()
}

/// More than 256 operators.
pub fn operators_fault(e: &Expr<u32>) -> Option<(Code, u32)>
    ensures { result ≡ least (expressions.too_many_operators (expression_of e.now)) }
{
    when(has_more(e, 256), Code::E16, line_of(e))
}
