//! Whole expressions.

ghost use Rattle.std.specs.Prelude.{◌≡◌, [], IfOk, IfErr};
ghost use Rattle.st_tree.specs.Expression.{expression_of};
ghost use Rattle.st_rules.specs.Expressions.{expression_faults, type_of, typed};
ghost use Rattle.check_nodes.specs.Found.{Finds};
ghost use Rattle.st_check_expr.specs.Broken.{Reports};

use crate::broken::Broken;
use crate::walk::check;
use check_calls::value_fault;
use check_nodes::{Checked, line_of, operators_fault};
use name_resolution::Scope;
use plc_text::NoMemory;
use st_rules::{Asked, earlier};
use st_tree::{Expr, Note};
use std::alloc::Global;

/// Checks an expression that stands in no other, at a place that asks for something.
pub fn check_whole(
    alloc: Global,
    s: &Scope<'_>,
    e: &Expr<u32>,
    asked: &Asked,
) -> Result<Checked, NoMemory>
    ensures { IfOk result (λ c. Finds c (type_of s.now asked.now (expression_of e.now)) (expression_faults s.now asked.now (expression_of e.now)) (typed s.now asked.now (expression_of e.now))) }
{
    let mut x = check(alloc, s, e, asked)?;
    let of_value = value_fault(s, line_of(e), asked, &x.told);
    let inner = earlier(x.least, of_value);
    x.least = earlier(inner, operators_fault(e));
    Ok(x)
}

/// The typed tree of an expression that stands in no other, at a place that asks for something, where no rule is broken; else the least
/// rule that is broken, at its least line. That of a rule is the line of the first token of what breaks it.
pub fn check_expr(
    alloc: Global,
    s: &Scope<'_>,
    e: &Expr<u32>,
    asked: &Asked,
) -> Result<Expr<Note>, Broken>
    ensures ok { IfOk result (λ t. (expression_faults s.now asked.now (expression_of e.now) ≡ []) × (expression_of t ≡ typed s.now asked.now (expression_of e.now))) }
    ensures err { IfErr result (λ b. Reports b (expression_faults s.now asked.now (expression_of e.now))) }
{
    let x = check_whole(alloc, s, e, asked)?;
    match x.least {
        Some((code, line)) => Err(Broken::Rule(code, line)),
        None => Ok(x.into_tree()),
    }
}
