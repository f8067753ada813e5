//! Offsets that the code of statements uses.

ghost use Rattle.std.specs.Prelude.{◌≡◌, ◌&&◌, IfOk, option_map};
ghost use Rattle.st_tree.specs.Expression.{arguments_of, expression_of, place_of};
ghost use Rattle.st_tree.specs.Statement.{branch_of, branches_of, case_branch_of, cases_of, otherwise_of, statement_of, statements_of};
ghost use Rattle.code_rules.specs.Code.{is_source, way_is_quiet};
ghost use Rattle.code_rules.specs.Places.{is_large};
ghost use Rattle.code_rules.specs.Tops.{assigned_top, branches_top, cases_top, effect_call_top, effect_top, effects_top, otherwise_top, source_top, step_top};
ghost use Rattle.codegen_tables.specs.Context.{plan_in};
ghost use Rattle.codegen_tops.specs.Steps.{branch_top};

use crate::expressions::{arguments_top, operand_top, outputs_top, place_top, value_top};
use body_uses::expression_note;
use codegen_body::copied_from;
use codegen_parts::{call_of, further, is_conversion, room_of};
use codegen_tables::Context;
use plc_text::NoMemory;
use st_tree::{Argument, Branch, Case, Expr, Note, Otherwise, Place, Stmt};
use st_types::StType;

/// The greatest offset that finding the place uses that an expression in parentheses is.
#[tactic(auto, using(st_tree::specs::Expression::expression_views))]
fn source_top<'p>(e: &'p Expr<Note>, c: &Context<'p>, free: u32) -> Result<u32, NoMemory>
    ensures { IfOk result (λ n. n ≡ source_top (plan_in c.now) free (expression_of e.now)) }
{
    match e {
        Expr::Place(_, place) => place_top(place, c, free),
        Expr::Paren(_, inner) => source_top(inner.get(), c, free),
        Expr::Int(_, _) => Ok(free),
        Expr::Typed(_, _, _) => Ok(free),
        Expr::Time(_, _) => Ok(free),
        Expr::True(_) => Ok(free),
        Expr::False(_) => Ok(free),
        Expr::Null(_) => Ok(free),
        Expr::Call(_, _, _) => Ok(free),
        Expr::Enumerator(_, _, _, _) => Ok(free),
        Expr::Ref(_, _) => Ok(free),
        Expr::Now(_) => Ok(free),
        Expr::Not(_, _) => Ok(free),
        Expr::Negate(_, _) => Ok(free),
        Expr::Chain(_, _, _) => Ok(free),
    }
}

fn assigned_top<'p>(
    target: &'p Place<Note>,
    e: &'p Expr<Note>,
    kind: &StType,
    c: &Context<'p>,
    free: u32,
) -> Result<u32, NoMemory>
    ensures { IfOk result (λ n. n ≡ assigned_top (plan_in c.now) free (place_of target.now).1 (expression_of e.now) (is_large kind.now && (is_source (expression_of e.now) && way_is_quiet (place_of target.now).1))) }
{
    match copied_from(target, e, kind) {
        Some(_) => {
            let first = source_top(e, c, free)?;
            let second = place_top(target, c, free)?;
            Ok(first.max(second))
        }
        None => {
            let behind = further(free, room_of(c, &expression_note(e).kind))?;
            let first = value_top(e, c, free)?;
            let second = place_top(target, c, behind)?;
            Ok(first.max(second))
        }
    }
}

fn call_top<'p>(
    place: &'p Place<Note>,
    arguments: &'p [Argument<Note>],
    c: &Context<'p>,
    free: u32,
) -> Result<u32, NoMemory>
    ensures { IfOk result (λ n. n ≡ effect_call_top (plan_in c.now) free (place_of place.now).0 (place_of place.now).1 (arguments_of arguments.now)) }
{
    let call = call_of(place, arguments, c, free)?;
    if is_conversion(call.callee) {
        return operand_top(arguments, c, free);
    }
    let way = place_top(place, c, free)?;
    let given = arguments_top(arguments, c, &call)?;
    let left = outputs_top(arguments, c, call.free)?;
    Ok(way.max(call.free.max(given.max(left))))
}

fn step_top<'p>(by: &'p Option<Expr<Note>>, c: &Context<'p>, free: u32) -> Result<u32, NoMemory>
    ensures { IfOk result (λ n. n ≡ step_top (plan_in c.now) free (option_map expression_of by.now)) }
{
    match by {
        Some(e) => value_top(e, c, free),
        None => Ok(free),
    }
}

/// The greatest offset that the code of statements uses, where the bytes from `free` on are free.
#[cycle(tops)]
pub fn effects_top<'p>(body: &'p [Stmt<Note>], c: &Context<'p>, free: u32) -> Result<u32, NoMemory>
    ensures { IfOk result (λ n. n ≡ effects_top (plan_in c.now) free (statements_of body.now)) }
{
    let mut most = 0u32;
    for s in body {
        let top = effect_top(s, c, free)?;
        most = most.max(top);
    }
    Ok(most.max(free))
}

#[cycle(tops)]
#[tactic(auto, using(st_tree::specs::Statement::statement_views))]
fn effect_top<'p>(s: &'p Stmt<Note>, c: &Context<'p>, free: u32) -> Result<u32, NoMemory>
    ensures { IfOk result (λ n. n ≡ effect_top (plan_in c.now) free (statement_of s.now)) }
{
    match s {
        Stmt::Empty(_) => Ok(free),
        Stmt::Exit(_) => Ok(free),
        Stmt::Continue(_) => Ok(free),
        Stmt::Return(_) => Ok(free),
        Stmt::Assign(_, a, target, e) => assigned_top(target, e, &a.kind, c, free),
        Stmt::Attempt(_, _, target, e) => {
            let first = value_top(e, c, free)?;
            let second = place_top(target, c, free)?;
            Ok(first.max(second))
        }
        Stmt::Call(_, _, place, arguments) => call_top(place, arguments.as_slice(), c, free),
        Stmt::If(_, branches, otherwise) => {
            let first = branches_top(branches.as_slice(), c, free)?;
            let second = otherwise_top(otherwise, c, free)?;
            Ok(first.max(second))
        }
        Stmt::Case(_, e, cases, otherwise) => {
            let first = value_top(e, c, free)?;
            let second = cases_top(cases.as_slice(), c, free)?;
            let third = otherwise_top(otherwise, c, free)?;
            Ok(first.max(second.max(third)))
        }
        Stmt::For(_, _, _, from, last, by, body) => {
            let step = further(free, 8)?;
            let behind = further(free, 16)?;
            let first = value_top(from, c, free)?;
            let second = value_top(last, c, free)?;
            let third = step_top(by, c, step)?;
            let fourth = effects_top(body.as_slice(), c, behind)?;
            Ok(first.max(second.max(third.max(behind.max(fourth)))))
        }
        Stmt::While(_, e, body) => {
            let first = value_top(e, c, free)?;
            let second = effects_top(body.as_slice(), c, free)?;
            Ok(first.max(second))
        }
        Stmt::Repeat(_, body, e) => {
            let first = effects_top(body.as_slice(), c, free)?;
            let second = value_top(e, c, free)?;
            Ok(first.max(second))
        }
    }
}

#[cycle(tops)]
#[tactic(auto, using(st_tree::specs::Statement::statement_views))]
fn otherwise_top<'p>(
    otherwise: &'p Otherwise<Note>,
    c: &Context<'p>,
    free: u32,
) -> Result<u32, NoMemory>
    ensures { IfOk result (λ n. n ≡ otherwise_top (plan_in c.now) free (otherwise_of otherwise.now)) }
{
    match otherwise {
        Otherwise::Nothing => Ok(free),
        Otherwise::Else(body) => effects_top(body.as_slice(), c, free),
    }
}

#[cycle(tops)]
fn branches_top<'p>(
    branches: &'p [Branch<Note>],
    c: &Context<'p>,
    free: u32,
) -> Result<u32, NoMemory>
    ensures { IfOk result (λ n. n ≡ branches_top (plan_in c.now) free (branches_of branches.now)) }
{
    let mut most = 0u32;
    for branch in branches {
        let top = branch_top(branch, c, free)?;
        most = most.max(top);
    }
    Ok(most.max(free))
}

#[cycle(tops)]
fn branch_top<'p>(branch: &'p Branch<Note>, c: &Context<'p>, free: u32) -> Result<u32, NoMemory>
    ensures { IfOk result (λ n. n ≡ branch_top (plan_in c.now) free (branch_of branch.now).0 (branch_of branch.now).1) }
{
    let first = value_top(&branch.condition, c, free)?;
    let second = effects_top(branch.body.as_slice(), c, free)?;
    Ok(first.max(second))
}

#[cycle(tops)]
fn cases_top<'p>(cases: &'p [Case<Note>], c: &Context<'p>, free: u32) -> Result<u32, NoMemory>
    ensures { IfOk result (λ n. n ≡ cases_top (plan_in c.now) free (cases_of cases.now)) }
{
    let mut most = 0u32;
    for case in cases {
        let top = case_top(case, c, free)?;
        most = most.max(top);
    }
    Ok(most.max(free))
}

#[cycle(tops)]
fn case_top<'p>(case: &'p Case<Note>, c: &Context<'p>, free: u32) -> Result<u32, NoMemory>
    ensures { IfOk result (λ n. n ≡ effects_top (plan_in c.now) free (case_branch_of case.now).1) }
{
    effects_top(case.body.as_slice(), c, free)
}
