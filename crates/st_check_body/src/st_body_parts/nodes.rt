//! Statements with statements in them, from what is found out about their parts, and lists, one item after the other.

ghost use Rattle.std.specs.Prelude.{IfOk, Bool};
ghost use Rattle.st_tree.specs.Statement as plain;
ghost use Rattle.st_rules.specs.Scope.{Scope as AScope};
ghost use Rattle.st_check_body.specs.st_body_parts.Found.{StatementFinds, OtherwiseFinds};
ghost use Rattle.st_check_body.specs.st_body_parts.Nodes.{IsIf, IsCase, IsFor, IsWhile, IsRepeat, IsBranch, IsCaseBranch, IsElse, NoStatement, AddsStatement, NoBranch, AddsBranch, NoCase, AddsCase, NoLabel, AddsLabel};

use crate::st_body_parts::found::{
    CheckedBranch, CheckedBranches, CheckedCase, CheckedCases, CheckedControl, CheckedLabel,
    CheckedLabels, CheckedOtherwise, CheckedStatement, CheckedStatements,
};
use check_nodes::Checked;
use plc_text::{Code, Items, NoMemory, Text};
use st_rules::{earlier, when};
use st_tree::{Branch, Case, Otherwise, Stmt};
use std::alloc::Global;

/// A lone `;`.
#[tactic(auto, using(crate::proofs::st_body_parts::Views::empty_view))]
pub fn empty_of(line: u32) -> CheckedStatement
    ensures { (s : AScope) (in_loop : Bool) → StatementFinds result s in_loop (plain.Empty line) }
{
    CheckedStatement {
        least: None,
        statement: Stmt::Empty(line),
    }
}

/// EXIT, in a loop or not.
#[tactic(auto, using(crate::proofs::st_body_parts::Views::exit_view))]
pub fn exit_of(line: u32, in_loop: bool) -> CheckedStatement
    ensures { (s : AScope) → StatementFinds result s in_loop (plain.Exit line) }
{
    CheckedStatement {
        least: when(!in_loop, Code::E10, line),
        statement: Stmt::Exit(line),
    }
}

/// CONTINUE, in a loop or not.
#[tactic(auto, using(crate::proofs::st_body_parts::Views::continue_view))]
pub fn continue_of(line: u32, in_loop: bool) -> CheckedStatement
    ensures { (s : AScope) → StatementFinds result s in_loop (plain.Continue line) }
{
    CheckedStatement {
        least: when(!in_loop, Code::E10, line),
        statement: Stmt::Continue(line),
    }
}

/// RETURN.
#[tactic(auto, using(crate::proofs::st_body_parts::Views::return_view))]
pub fn return_of(line: u32) -> CheckedStatement
    ensures { (s : AScope) (in_loop : Bool) → StatementFinds result s in_loop (plain.Return line) }
{
    CheckedStatement {
        least: None,
        statement: Stmt::Return(line),
    }
}

/// No ELSE.
#[tactic(auto, using(crate::proofs::st_body_parts::Views::nothing_view))]
pub fn no_else() -> CheckedOtherwise
    ensures { (s : AScope) (in_loop : Bool) → OtherwiseFinds result s in_loop plain.Nothing }
{
    CheckedOtherwise {
        least: None,
        otherwise: Otherwise::Nothing,
    }
}

/// An IF.
#[tactic(auto, using(crate::proofs::st_body_parts::Views::if_view))]
pub fn if_of(line: u32, bs: CheckedBranches, o: CheckedOtherwise) -> CheckedStatement
    ensures { IsIf result line bs o }
{
    CheckedStatement {
        least: earlier(bs.least, o.least),
        statement: Stmt::If(line, bs.into_branches(), o.otherwise),
    }
}

/// A CASE.
#[tactic(auto, using(crate::proofs::st_body_parts::Views::case_view))]
pub fn case_of(
    line: u32,
    choice: Checked,
    cs: CheckedCases,
    o: CheckedOtherwise,
) -> CheckedStatement
    ensures { IsCase result line choice cs o }
{
    CheckedStatement {
        least: earlier(earlier(choice.least, cs.least), o.least),
        statement: Stmt::Case(line, choice.into_tree(), cs.into_cases(), o.otherwise),
    }
}

/// A FOR.
#[tactic(auto, using(crate::proofs::st_body_parts::Views::for_view))]
pub fn for_of(
    alloc: Global,
    line: u32,
    name: &Text,
    control: CheckedControl,
    body: CheckedStatements,
) -> Result<CheckedStatement, NoMemory>
    ensures { IfOk result (λ c. IsFor c line name.now control body) }
{
    let name = Text::copy(alloc, name.as_str())?;
    Ok(CheckedStatement {
        least: earlier(control.least, body.least),
        statement: control.into_statement(line, name, body.into_statements()),
    })
}

/// A WHILE.
#[tactic(auto, using(crate::proofs::st_body_parts::Views::while_view))]
pub fn while_of(line: u32, e: Checked, body: CheckedStatements) -> CheckedStatement
    ensures { IsWhile result line e body }
{
    CheckedStatement {
        least: earlier(e.least, body.least),
        statement: Stmt::While(line, e.into_tree(), body.into_statements()),
    }
}

/// A REPEAT.
#[tactic(auto, using(crate::proofs::st_body_parts::Views::repeat_view))]
pub fn repeat_of(line: u32, body: CheckedStatements, e: Checked) -> CheckedStatement
    ensures { IsRepeat result line body e }
{
    CheckedStatement {
        least: earlier(body.least, e.least),
        statement: Stmt::Repeat(line, body.into_statements(), e.into_tree()),
    }
}

/// A branch of an IF.
#[tactic(auto, using(crate::proofs::st_body_parts::Views::branch_view))]
pub fn branch_of(e: Checked, body: CheckedStatements) -> CheckedBranch
    ensures { IsBranch result e body }
{
    CheckedBranch {
        least: earlier(e.least, body.least),
        branch: Branch {
            condition: e.into_tree(),
            body: body.into_statements(),
        },
    }
}

/// A case of a CASE.
#[tactic(auto, using(crate::proofs::st_body_parts::Views::case_branch_view))]
pub fn case_branch_of(ls: CheckedLabels, body: CheckedStatements) -> CheckedCase
    ensures { IsCaseBranch result ls body }
{
    CheckedCase {
        least: earlier(ls.least, body.least),
        case: Case {
            labels: ls.labels,
            body: body.into_statements(),
        },
    }
}

/// What stands behind ELSE.
#[tactic(auto, using(crate::proofs::st_body_parts::Views::else_view))]
pub fn else_of(body: CheckedStatements) -> CheckedOtherwise
    ensures { IsElse result body }
{
    CheckedOtherwise {
        least: body.least,
        otherwise: Otherwise::Else(body.into_statements()),
    }
}

/// No statements yet.
pub fn no_statement(alloc: Global) -> CheckedStatements
    ensures { NoStatement result }
{
    CheckedStatements {
        least: None,
        statements: Items::new(alloc),
    }
}

/// The statements with one more.
pub fn with_statement(
    so_far: CheckedStatements,
    one: CheckedStatement,
) -> Result<CheckedStatements, NoMemory>
    ensures { IfOk result (λ x. AddsStatement x so_far one) }
{
    let mut so_far = so_far;
    so_far.least = earlier(so_far.least, one.least);
    so_far.statements.push(one.into_statement())?;
    Ok(so_far)
}

/// No branches yet.
pub fn no_branch(alloc: Global) -> CheckedBranches
    ensures { NoBranch result }
{
    CheckedBranches {
        least: None,
        branches: Items::new(alloc),
    }
}

/// The branches with one more.
pub fn with_branch(so_far: CheckedBranches, one: CheckedBranch) -> Result<CheckedBranches, NoMemory>
    ensures { IfOk result (λ x. AddsBranch x so_far one) }
{
    let mut so_far = so_far;
    so_far.least = earlier(so_far.least, one.least);
    so_far.branches.push(one.into_branch())?;
    Ok(so_far)
}

/// No cases yet.
pub fn no_case(alloc: Global) -> CheckedCases
    ensures { NoCase result }
{
    CheckedCases {
        least: None,
        cases: Items::new(alloc),
    }
}

/// The cases with one more.
pub fn with_case(so_far: CheckedCases, one: CheckedCase) -> Result<CheckedCases, NoMemory>
    ensures { IfOk result (λ x. AddsCase x so_far one) }
{
    let mut so_far = so_far;
    so_far.least = earlier(so_far.least, one.least);
    so_far.cases.push(one.into_case())?;
    Ok(so_far)
}

/// No labels yet.
pub fn no_label(alloc: Global) -> CheckedLabels
    ensures { NoLabel result }
{
    CheckedLabels {
        least: None,
        labels: Items::new(alloc),
    }
}

/// The labels with one more.
pub fn with_label(so_far: CheckedLabels, one: CheckedLabel) -> Result<CheckedLabels, NoMemory>
    ensures { IfOk result (λ x. AddsLabel x so_far one) }
{
    let CheckedLabels { least, mut labels } = so_far;
    let least = earlier(least, one.least);
    labels.push(one.into_label())?;
    Ok(CheckedLabels { least, labels })
}
