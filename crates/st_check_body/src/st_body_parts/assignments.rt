//! Assignments, attempts and calls as statements.

ghost use Rattle.std.specs.Prelude.{◌≡◌, IfOk, Bool};
ghost use Rattle.st_tree.specs.Expression.{expression_of, arguments_of, place_of};
ghost use Rattle.st_tree.specs.Statement as plain;
ghost use Rattle.st_rules.specs.Faults.{least};
ghost use Rattle.st_rules.specs.Kinds as kinds;
ghost use Rattle.st_rules.specs.Statements as statements;
ghost use Rattle.st_check_body.specs.st_body_parts.Found.{TargetFinds, StatementFinds};

use crate::st_body_parts::found::CheckedStatement;
use crate::st_body_parts::limits::{arguments_limit, selectors_limit};
use check_nodes::{CheckedPlace, line_of, prepare};
use check_places::{
    note, note_of, placed, root_line, selectors_fault, standing_type, target_fault, whole_fault,
};
use name_resolution::Scope;
use plc_text::{Code, NoMemory};
use st_check_expr::{check_arguments, check_place, check_whole};
use st_operators::{asked_of, is_reference};
use st_rules::{Asked, earlier, when};
use st_tree::{Argument, Expr, Place, Stmt, Target};
use st_types::StType;
use std::alloc::Global;

/// Checks the place on the left of `:=` or `?=`.
fn check_target(alloc: Global, s: &Scope<'_>, place: &Place<u32>) -> Result<CheckedPlace, NoMemory>
    ensures { IfOk result (λ x. TargetFinds x s.now (place_of place.now).0 (place_of place.now).1) }
{
    let mut x = check_place(alloc, s, place, false)?;
    let root = &place.root;
    let selectors = place.selectors.as_slice();
    let whole = earlier(x.least, whole_fault(s, root, selectors));
    let limited = earlier(whole, selectors_limit(selectors));
    let found = earlier(limited, target_fault(s, root, selectors));
    x.least = found;
    Ok(x)
}

/// Checks `place := value`, with the lines of the statement and of the place.
pub fn check_assign(
    alloc: Global,
    s: &Scope<'_>,
    line: u32,
    place_line: u32,
    place: &Place<u32>,
    value: &Expr<u32>,
) -> Result<CheckedStatement, NoMemory>
    ensures { (in_loop : Bool) → IfOk result (λ c. StatementFinds c s.now in_loop (plain.Assign line place_line (place_of place.now).0 (place_of place.now).1 (expression_of value.now))) }
{
    let target = check_target(alloc, s, place)?;
    let b = placed(s, &place.root, place.selectors.as_slice());
    let told = standing_type(alloc, b)?;
    let x = check_whole(alloc, s, value, &asked_of(told))?;
    let note = note_of(alloc, place_line, b, Target::Nothing)?;
    let found = earlier(target.least, x.least);
    Ok(CheckedStatement {
        least: found,
        statement: Stmt::Assign(line, note, target.into_place(), x.into_tree()),
    })
}

fn is_null(e: &Expr<u32>) -> bool
    ensures { result ≡ statements.is_null (expression_of e.now) }
{
    match e {
        Expr::Null(_) => true,
        Expr::Paren(_, inner) => is_null(inner.get()),
        Expr::Int(_, _) => false,
        Expr::Typed(_, _, _) => false,
        Expr::Time(_, _) => false,
        Expr::True(_) => false,
        Expr::False(_) => false,
        Expr::Place(_, _) => false,
        Expr::Call(_, _, _) => false,
        Expr::Enumerator(_, _, _, _) => false,
        Expr::Ref(_, _) => false,
        Expr::Now(_) => false,
        Expr::Not(_, _) => false,
        Expr::Negate(_, _) => false,
        Expr::Chain(_, _, _) => false,
    }
}

fn is_instance(t: &StType) -> bool
    ensures { result ≡ kinds.is_instance t.now }
{
    matches!(t, StType::Instance(_))
}

fn is_no_attempted(t: &Option<StType>) -> bool
    ensures { result ≡ statements.is_no_attempted t.now }
{
    match t {
        Some(t) => !(is_reference(t) || is_instance(t)),
        None => false,
    }
}

/// NULL, or what is no instance, on the right of `?=`.
fn attempted_fault(line: u32, null: bool, t: &Option<StType>) -> Option<(Code, u32)>
    ensures { result ≡ least (statements.attempt_of_no_instance line null t.now) }
{
    when(null || is_no_attempted(t), Code::E07, line)
}

/// What is no reference on the left of `?=`.
fn attempt_place_fault(line: u32, t: &Option<StType>) -> Option<(Code, u32)>
    ensures { result ≡ least (statements.attempt_at_no_reference line t.now) }
{
    match t {
        Some(t) => when(!is_reference(t), Code::E07, line),
        None => None,
    }
}

/// Checks `place ?= value`, with the lines of the statement and of the place.
pub fn check_attempt(
    alloc: Global,
    s: &Scope<'_>,
    line: u32,
    place_line: u32,
    place: &Place<u32>,
    value: &Expr<u32>,
) -> Result<CheckedStatement, NoMemory>
    ensures { (in_loop : Bool) → IfOk result (λ c. StatementFinds c s.now in_loop (plain.Attempt line place_line (place_of place.now).0 (place_of place.now).1 (expression_of value.now))) }
{
    let target = check_target(alloc, s, place)?;
    let b = placed(s, &place.root, place.selectors.as_slice());
    let told = standing_type(alloc, b)?;
    let of_place = attempt_place_fault(root_line(&place.root), &told);
    drop(told);
    let note = note_of(alloc, place_line, b, Target::Nothing)?;
    let x = check_whole(alloc, s, value, &Asked::Anything)?;
    let of_value = attempted_fault(line_of(value), is_null(value), &x.told);
    let on_left = earlier(target.least, of_place);
    let on_both = earlier(on_left, x.least);
    let found = earlier(on_both, of_value);
    Ok(CheckedStatement {
        least: found,
        statement: Stmt::Attempt(line, note, target.into_place(), x.into_tree()),
    })
}

/// Checks a call as a statement, with the lines of the statement and of the call.
pub fn check_call(
    alloc: Global,
    s: &Scope<'_>,
    line: u32,
    call_line: u32,
    place: &Place<u32>,
    arguments: &[Argument<u32>],
) -> Result<CheckedStatement, NoMemory>
    ensures { (in_loop : Bool) → IfOk result (λ c. StatementFinds c s.now in_loop (plain.Call line call_line (place_of place.now).0 (place_of place.now).1 (arguments_of arguments.now))) }
{
    let root = &place.root;
    let selectors = place.selectors.as_slice();
    let call = prepare(alloc, s, call_line, root, selectors, arguments)?;
    let x = check_place(alloc, s, place, true)?;
    let xs = check_arguments(alloc, s, arguments, &call.slots)?;
    let of_place = earlier(x.least, selectors_fault(s, root_line(root), selectors));
    let limited = earlier(of_place, selectors_limit(selectors));
    let of_callee = earlier(limited, call.least);
    let of_arguments = earlier(of_callee, xs.least);
    let found = earlier(of_arguments, arguments_limit(arguments));
    Ok(CheckedStatement {
        least: found,
        statement: Stmt::Call(
            line,
            note(call_line, call.told, Target::Nothing),
            x.into_place(),
            xs.arguments,
        ),
    })
}
