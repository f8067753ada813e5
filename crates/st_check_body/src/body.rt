//! Bodies: in one walk the least rule that statements break, and their typed trees.

ghost use Rattle.std.specs.Prelude.{◌≡◌, [], false, IfOk, IfErr};
ghost use Rattle.st_tree.specs.Statement.{statement_of, statements_of, branches_of, cases_of, otherwise_of};
ghost use Rattle.st_tree.specs.Statement as plain;
ghost use Rattle.st_rules.specs.Statements.{body_faults, typed_statements};
ghost use Rattle.st_check_expr.specs.Broken.{Reports};
ghost use Rattle.st_check_body.specs.st_body_parts.Found.{StatementFinds, StatementsFind, BranchFinds, BranchesFind, CaseFinds, CasesFind, OtherwiseFinds};

use crate::st_body_parts::{
    CheckedBranch, CheckedBranches, CheckedCase, CheckedCases, CheckedOtherwise, CheckedStatement,
    CheckedStatements, branch_of, case_branch_of, case_of, check_assign, check_attempt, check_call,
    check_choice, check_condition, check_control, check_labels, choice_asked, continue_of, else_of,
    empty_of, exit_of, for_of, if_of, no_branch, no_case, no_else, no_statement, repeat_of,
    return_of, while_of, with_branch, with_case, with_statement,
};
use name_resolution::Scope;
use plc_text::{Items, NoMemory};
use st_check_expr::Broken;
use st_rules::Asked;
use st_tree::{Branch, Case, Note, Otherwise, Stmt};
use std::alloc::Global;

/// Checks one statement, which stands in a loop or not.
#[cycle(body)]
fn check_statement(
    alloc: Global,
    s: &Scope<'_>,
    in_loop: bool,
    x: &Stmt<u32>,
) -> Result<CheckedStatement, NoMemory>
    ensures { IfOk result (λ c. StatementFinds c s.now in_loop (statement_of x.now)) }
{
    match x {
        Stmt::Empty(line) => Ok(empty_of(*line)),
        Stmt::Assign(line, place_line, place, value) => check_assign(
            alloc,
            s,
            *line,
            *place_line,
            place,
            value,
        ),
        Stmt::Attempt(line, place_line, place, value) => check_attempt(
            alloc,
            s,
            *line,
            *place_line,
            place,
            value,
        ),
        Stmt::Call(line, call_line, place, arguments) => check_call(
            alloc,
            s,
            *line,
            *call_line,
            place,
            arguments.as_slice(),
        ),
        Stmt::Exit(line) => Ok(exit_of(*line, in_loop)),
        Stmt::Continue(line) => Ok(continue_of(*line, in_loop)),
        Stmt::Return(line) => Ok(return_of(*line)),
        Stmt::If(line, branches, otherwise) => {
            let bs = check_branches(alloc, s, in_loop, branches.as_slice())?;
            let o = check_otherwise(alloc, s, in_loop, otherwise)?;
            Ok(if_of(*line, bs, o))
        }
        Stmt::Case(line, e, cases, otherwise) => {
            let choice = check_choice(alloc, s, e)?;
            let asked = choice_asked(alloc, &choice)?;
            let cs = check_cases(alloc, s, in_loop, &asked, cases.as_slice())?;
            let o = check_otherwise(alloc, s, in_loop, otherwise)?;
            Ok(case_of(*line, choice, cs, o))
        }
        Stmt::For(line, name_line, name, from, to, by, body) => {
            let control = check_control(alloc, s, *name_line, name, from, to, by)?;
            let body = check_statements(alloc, s, true, body.as_slice())?;
            for_of(alloc, *line, name, control, body)
        }
        Stmt::While(line, e, body) => {
            let e = check_condition(alloc, s, e)?;
            let body = check_statements(alloc, s, true, body.as_slice())?;
            Ok(while_of(*line, e, body))
        }
        Stmt::Repeat(line, body, e) => {
            let repeated = check_statements(alloc, s, true, body.as_slice())?;
            let e = check_condition(alloc, s, e)?;
            Ok(repeat_of(*line, repeated, e))
        }
    }
}

/// Checks statements in a row.
#[cycle(body)]
fn check_statements(
    alloc: Global,
    s: &Scope<'_>,
    in_loop: bool,
    body: &[Stmt<u32>],
) -> Result<CheckedStatements, NoMemory>
    ensures { IfOk result (λ c. StatementsFind c s.now in_loop (statements_of body.now)) }
{
    let mut so_far = no_statement(alloc);
    for x in body {
        let one = check_statement(alloc, s, in_loop, x)?;
        so_far = with_statement(so_far, one)?;
    }
    Ok(so_far)
}

/// Checks a branch of an IF.
#[cycle(body)]
fn check_branch(
    alloc: Global,
    s: &Scope<'_>,
    in_loop: bool,
    branch: &Branch<u32>,
) -> Result<CheckedBranch, NoMemory>
    ensures { IfOk result (λ c. BranchFinds c s.now in_loop (plain.branch_of branch.now).0 (plain.branch_of branch.now).1) }
{
    let e = check_condition(alloc, s, &branch.condition)?;
    let body = check_statements(alloc, s, in_loop, branch.body.as_slice())?;
    Ok(branch_of(e, body))
}

/// Checks the branches of an IF.
#[cycle(body)]
fn check_branches(
    alloc: Global,
    s: &Scope<'_>,
    in_loop: bool,
    branches: &[Branch<u32>],
) -> Result<CheckedBranches, NoMemory>
    ensures { IfOk result (λ c. BranchesFind c s.now in_loop (branches_of branches.now)) }
{
    let mut so_far = no_branch(alloc);
    for branch in branches {
        let one = check_branch(alloc, s, in_loop, branch)?;
        so_far = with_branch(so_far, one)?;
    }
    Ok(so_far)
}

/// Checks a case, whose labels are asked for something.
#[cycle(body)]
fn check_case(
    alloc: Global,
    s: &Scope<'_>,
    in_loop: bool,
    asked: &Asked,
    case: &Case<u32>,
) -> Result<CheckedCase, NoMemory>
    ensures { IfOk result (λ c. CaseFinds c s.now in_loop asked.now (plain.case_branch_of case.now).0 (plain.case_branch_of case.now).1) }
{
    let ls = check_labels(alloc, s, asked, case.labels.as_slice())?;
    let body = check_statements(alloc, s, in_loop, case.body.as_slice())?;
    Ok(case_branch_of(ls, body))
}

/// Checks the cases of a CASE.
#[cycle(body)]
fn check_cases(
    alloc: Global,
    s: &Scope<'_>,
    in_loop: bool,
    asked: &Asked,
    cases: &[Case<u32>],
) -> Result<CheckedCases, NoMemory>
    ensures { IfOk result (λ c. CasesFind c s.now in_loop asked.now (cases_of cases.now)) }
{
    let mut so_far = no_case(alloc);
    for case in cases {
        let one = check_case(alloc, s, in_loop, asked, case)?;
        so_far = with_case(so_far, one)?;
    }
    Ok(so_far)
}

/// Checks what stands behind ELSE, where there is one.
#[cycle(body)]
fn check_otherwise(
    alloc: Global,
    s: &Scope<'_>,
    in_loop: bool,
    otherwise: &Otherwise<u32>,
) -> Result<CheckedOtherwise, NoMemory>
    ensures { IfOk result (λ c. OtherwiseFinds c s.now in_loop (otherwise_of otherwise.now)) }
{
    match otherwise {
        Otherwise::Nothing => Ok(no_else()),
        Otherwise::Else(body) => {
            let body = check_statements(alloc, s, in_loop, body.as_slice())?;
            Ok(else_of(body))
        }
    }
}

/// The typed trees of a body's statements, where no rule is broken; else the least rule that is broken, at its least line. That of a rule
/// is the line of the first token of what breaks it.
pub fn check_body(
    alloc: Global,
    s: &Scope<'_>,
    body: &[Stmt<u32>],
) -> Result<Items<Stmt<Note>>, Broken>
    ensures ok { IfOk result (λ t. (body_faults s.now (statements_of body.now) ≡ []) × (statements_of t ≡ typed_statements s.now (statements_of body.now))) }
    ensures err { IfErr result (λ b. Reports b (body_faults s.now (statements_of body.now))) }
{
    let x = check_statements(alloc, s, false, body)?;
    match x.least {
        Some((code, line)) => Err(Broken::Rule(code, line)),
        None => Ok(x.into_statements()),
    }
}
