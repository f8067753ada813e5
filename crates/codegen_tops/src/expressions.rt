//! Offsets that the code of expressions and places uses.

ghost use Rattle.std.specs.Prelude.{◌≡◌, IfOk};
ghost use Rattle.st_tree.specs.Expression.{argument_of, arguments_of, expression_of, expressions_of, place_of, selector_of, selectors_of, tail_of, tails_of};
ghost use Rattle.routine_tables.specs.Parameters.{parameters_of};
ghost use Rattle.code_rules.specs.Tops.{along_top, arguments_top, index_top, operand_top, outputs_top, selector_top, tails_top, value_top};
ghost use Rattle.codegen_tables.specs.Context.{plan_in};
ghost use Rattle.codegen_tops.specs.Steps.{argument_top, output_top};

use body_uses::{last_kind, root_note};
use codegen_parts::{CallPlan, Cursor, behind_argument, call_of, further, is_conversion, room_of};
use codegen_tables::Context;
use plc_text::NoMemory;
use st_tree::{Argument, Expr, Note, Place, Selector, Tail};

/// The greatest offset that the code of an expression uses, where the bytes from `free` on are free.
#[cycle(tops)]
#[tactic(auto, using(st_tree::specs::Expression::expression_views))]
pub fn value_top<'p>(e: &'p Expr<Note>, c: &Context<'p>, free: u32) -> Result<u32, NoMemory>
    ensures { IfOk result (λ n. n ≡ value_top (plan_in c.now) free (expression_of e.now)) }
{
    match e {
        Expr::Int(_, _) => Ok(free),
        Expr::Typed(_, _, _) => Ok(free),
        Expr::Time(_, _) => Ok(free),
        Expr::True(_) => Ok(free),
        Expr::False(_) => Ok(free),
        Expr::Null(_) => Ok(free),
        Expr::Enumerator(_, _, _, _) => Ok(free),
        Expr::Now(_) => Ok(free),
        Expr::Place(a, place) => {
            let behind = further(free, room_of(c, &a.kind))?;
            let way = place_top(place, c, free)?;
            Ok(way.max(behind))
        }
        Expr::Ref(_, place) => place_top(place, c, free),
        Expr::Call(a, place, arguments) => {
            let arguments = arguments.as_slice();
            let block = further(free, room_of(c, &a.kind))?;
            let call = call_of(place, arguments, c, block)?;
            if is_conversion(call.callee) {
                return operand_top(arguments, c, free);
            }
            let way = place_top(place, c, free)?;
            let given = arguments_top(arguments, c, &call)?;
            let left = outputs_top(arguments, c, call.free)?;
            Ok(way.max(call.free.max(given.max(left))))
        }
        Expr::Paren(_, inner) => value_top(inner.get(), c, free),
        Expr::Not(_, inner) => value_top(inner.get(), c, free),
        Expr::Negate(_, inner) => value_top(inner.get(), c, free),
        Expr::Chain(_, first, tails) => {
            let one = value_top(first.get(), c, free)?;
            let others = tails_top(tails.as_slice(), c, free)?;
            Ok(one.max(others))
        }
    }
}

/// The greatest offset that finding a place uses.
#[cycle(tops)]
#[tactic(auto, using(st_tree::specs::Expression::expression_views))]
pub fn place_top<'p>(place: &'p Place<Note>, c: &Context<'p>, free: u32) -> Result<u32, NoMemory>
    ensures { IfOk result (λ n. n ≡ along_top (plan_in c.now) free (place_of place.now).1) }
{
    along_top(place.selectors.as_slice(), c, free)
}

#[cycle(tops)]
fn along_top<'p>(
    selectors: &'p [Selector<Note>],
    c: &Context<'p>,
    free: u32,
) -> Result<u32, NoMemory>
    ensures { IfOk result (λ n. n ≡ along_top (plan_in c.now) free (selectors_of selectors.now)) }
{
    let mut most = 0u32;
    for selector in selectors {
        let top = selector_top(selector, c, free)?;
        most = most.max(top);
    }
    Ok(most.max(free))
}

#[cycle(tops)]
#[tactic(auto, using(st_tree::specs::Expression::expression_views))]
fn selector_top<'p>(
    selector: &'p Selector<Note>,
    c: &Context<'p>,
    free: u32,
) -> Result<u32, NoMemory>
    ensures { IfOk result (λ n. n ≡ selector_top (plan_in c.now) free (selector_of selector.now)) }
{
    match selector {
        Selector::Field(_, _) => Ok(free),
        Selector::Index(_, indices) => index_top(indices.as_slice(), c, free),
        Selector::Target(_) => Ok(free),
    }
}

#[cycle(tops)]
fn index_top<'p>(indices: &'p [Expr<Note>], c: &Context<'p>, free: u32) -> Result<u32, NoMemory>
    ensures { IfOk result (λ n. n ≡ index_top (plan_in c.now) free (expressions_of indices.now)) }
{
    let mut most = 0u32;
    for index in indices {
        let top = value_top(index, c, free)?;
        most = most.max(top);
    }
    Ok(most.max(free))
}

#[cycle(tops)]
#[tactic(auto, using(st_tree::specs::Expression::expression_views))]
fn tail_top<'p>(tail: &'p Tail<Note>, c: &Context<'p>, free: u32) -> Result<u32, NoMemory>
    ensures { IfOk result (λ n. n ≡ value_top (plan_in c.now) free (tail_of tail.now).2) }
{
    value_top(&tail.operand, c, free)
}

#[cycle(tops)]
fn tails_top<'p>(tails: &'p [Tail<Note>], c: &Context<'p>, free: u32) -> Result<u32, NoMemory>
    ensures { IfOk result (λ n. n ≡ tails_top (plan_in c.now) free (tails_of tails.now)) }
{
    let mut most = 0u32;
    for tail in tails {
        let top = tail_top(tail, c, free)?;
        most = most.max(top);
    }
    Ok(most.max(free))
}

/// The greatest offset that a conversion uses.
#[cycle(tops)]
#[tactic(auto, using(st_tree::specs::Expression::expression_views))]
pub fn operand_top<'p>(
    arguments: &'p [Argument<Note>],
    c: &Context<'p>,
    free: u32,
) -> Result<u32, NoMemory>
    ensures { IfOk result (λ n. n ≡ operand_top (plan_in c.now) free (arguments_of arguments.now)) }
{
    match arguments.first() {
        Some(first) => match first {
            Argument::Positional(value) => value_top(value, c, free),
            Argument::Input(_, _, _) => Ok(free),
            Argument::Output(_, _, _, _) => Ok(free),
        },
        None => Ok(free),
    }
}

/// The greatest offset that the arguments of a call use.
#[cycle(tops)]
pub fn arguments_top<'p>(
    arguments: &'p [Argument<Note>],
    c: &Context<'p>,
    call: &CallPlan<'_>,
) -> Result<u32, NoMemory>
    ensures { IfOk result (λ n. n ≡ arguments_top (plan_in c.now) call.now.free (parameters_of call.now.parameters.now) (parameters_of call.now.parameters.now) (arguments_of arguments.now)) }
{
    let mut most = 0u32;
    let mut cursor = Cursor {
        number: 0,
        left: call.parameters,
        free: call.free,
    };
    for argument in arguments {
        let top = argument_top(argument, c, cursor.free)?;
        most = most.max(top);
        cursor = behind_argument(c, cursor, call.parameters, argument)?;
    }
    Ok(most.max(cursor.free))
}

#[cycle(tops)]
#[tactic(auto, using(st_tree::specs::Expression::expression_views))]
fn argument_top<'p>(
    argument: &'p Argument<Note>,
    c: &Context<'p>,
    free: u32,
) -> Result<u32, NoMemory>
    ensures { IfOk result (λ n. n ≡ argument_top (plan_in c.now) free (argument_of argument.now)) }
{
    match argument {
        Argument::Positional(value) => value_top(value, c, free),
        Argument::Input(_, _, value) => value_top(value, c, free),
        Argument::Output(_, _, _, _) => Ok(0),
    }
}

/// The greatest offset that the outputs of a call use.
#[cycle(tops)]
pub fn outputs_top<'p>(
    arguments: &'p [Argument<Note>],
    c: &Context<'p>,
    free: u32,
) -> Result<u32, NoMemory>
    ensures { IfOk result (λ n. n ≡ outputs_top (plan_in c.now) free (arguments_of arguments.now)) }
{
    let mut most = 0u32;
    for argument in arguments {
        let top = output_top(argument, c, free)?;
        most = most.max(top);
    }
    Ok(most.max(free))
}

#[cycle(tops)]
#[tactic(auto, using(st_tree::specs::Expression::expression_views))]
fn output_top<'p>(argument: &'p Argument<Note>, c: &Context<'p>, free: u32) -> Result<u32, NoMemory>
    ensures { IfOk result (λ n. n ≡ output_top (plan_in c.now) free (argument_of argument.now)) }
{
    match argument {
        Argument::Output(_, _, _, place) => {
            let kind = last_kind(&root_note(&place.root).kind, place.selectors.as_slice());
            let behind = further(free, room_of(c, kind))?;
            let way = place_top(place, c, behind)?;
            Ok(behind.max(way))
        }
        Argument::Positional(_) => Ok(0),
        Argument::Input(_, _, _) => Ok(0),
    }
}
