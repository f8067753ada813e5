//! The walk over statements.

ghost use Rattle.std.specs.Prelude.{◌≡◌, ◌≤◌, ◌++◌, OnOk, length, reverse, vec_len};
ghost use Rattle.st_tree.specs.Statement.{branch_of, branches_of, case_branch_of, cases_of, otherwise_of, statement_of, statements_of};
ghost use Rattle.codegen_body.specs.Backward.{Built, Within, branch_before, case_before, targets_at};
ghost use Rattle.codegen_tables.specs.Context.{plan_in};
ghost use Rattle.code_rules.specs.Bodies.{branches_code, cases_code, effect_code, effects_code, otherwise_code};

use crate::backward::narrow;
use crate::counting::count_kinds;
use crate::destinations::Destinations;
use crate::labels::emit_labels;
use crate::loops::{begin_for, close_for, close_repeat, close_while, open_for, open_repeat};
use crate::steps::{emit_assignment, emit_attempt, emit_call_statement, emit_condition, emit_jump};
use code_cells::Cell;
use codegen_parts::{does, further, push};
use codegen_tables::Context;
use plc_text::NoMemory;
use st_tree::{Branch, Case, Note, Otherwise, Stmt};
use stack_code::Op;

/// The code of statements before the code that stands there. The bytes of the locals from `free` on are free.
#[cycle(bodies)]
pub fn emit_body<'p>(
    body: &'p [Stmt<Note>],
    cells: &mut Vec<Cell>,
    c: &Context<'p>,
    to: Destinations,
    free: u32,
) -> Result<(), NoMemory>
    requires { Within to (vec_len cells.old) }
    ensures { OnOk result (reverse cells.new.items ≡ effects_code (plan_in c.now) (targets_at (length cells.old.items) to) free (statements_of body.now) ++ reverse cells.old.items) }
{
    let mut i = body.len();
    'statements: while i > 0 {
        i -= 1;
        emit_statement(&body[i], cells, c, to, free)?;
    }
    Ok(())
}

#[cycle(bodies)]
#[tactic(auto, using(st_tree::specs::Statement::statement_views))]
fn emit_statement<'p>(
    s: &'p Stmt<Note>,
    cells: &mut Vec<Cell>,
    c: &Context<'p>,
    to: Destinations,
    free: u32,
) -> Result<(), NoMemory>
    requires { Within to (vec_len cells.old) }
    ensures { OnOk result (reverse cells.new.items ≡ effect_code (plan_in c.now) (targets_at (length cells.old.items) to) free (statement_of s.now) ++ reverse cells.old.items) }
{
    match s {
        Stmt::Empty(_) => Ok(()),
        Stmt::Assign(line, a, place, e) => {
            emit_assignment(place, e, &a.kind, cells, c, free, *line)
        }
        Stmt::Attempt(line, a, place, e) => emit_attempt(place, e, &a.kind, cells, c, free, *line),
        Stmt::Call(line, _, place, arguments) => {
            emit_call_statement(place, arguments.as_slice(), cells, c, free, *line)
        }
        Stmt::Exit(line) => emit_jump(cells, to.exit, *line),
        Stmt::Continue(line) => emit_jump(cells, to.next, *line),
        Stmt::Return(line) => emit_jump(cells, to.end, *line),
        Stmt::If(line, branches, otherwise) => {
            let end = cells.len();
            emit_otherwise(otherwise, cells, c, to, free)?;
            emit_branches(branches.as_slice(), end, cells, c, to, free, *line)?;
            does(cells, Op::Tick, *line)
        }
        Stmt::Case(line, e, cases, otherwise) => {
            let end = cells.len();
            emit_otherwise(otherwise, cells, c, to, free)?;
            does(cells, Op::Drop, *line)?;
            emit_cases(cases.as_slice(), end, cells, c, to, free, *line)?;
            emit_condition(e, cells, c, free, *line)?;
            does(cells, Op::Tick, *line)
        }
        Stmt::While(line, e, body) => {
            let end = cells.len();
            push(cells, Cell::Returns(0, *line))?;
            let inner = Destinations {
                exit: end,
                next: cells.len(),
                end: to.end,
            };
            emit_body(body.as_slice(), cells, c, inner, free)?;
            close_while(e, end, cells, c, free, *line)
        }
        Stmt::For(line, a, _, from, last, by, body) => {
            let end = cells.len();
            let kinds = count_kinds(&a.kind, last, by);
            let behind = further(free, 16)?;
            open_for(&a.target, kinds, cells, c, free, *line)?;
            let inner = Destinations {
                exit: end,
                next: cells.len(),
                end: to.end,
            };
            emit_body(body.as_slice(), cells, c, inner, behind)?;
            close_for(&a.target, kinds, end, cells, c, free, *line)?;
            begin_for(from, last, by, &a.target, kinds, cells, c, free, *line)
        }
        Stmt::Repeat(line, body, e) => {
            let end = cells.len();
            open_repeat(e, cells, c, free, *line)?;
            let inner = Destinations {
                exit: end,
                next: cells.len(),
                end: to.end,
            };
            emit_body(body.as_slice(), cells, c, inner, free)?;
            close_repeat(cells, end, *line)
        }
    }
}

#[cycle(bodies)]
#[tactic(auto, using(st_tree::specs::Statement::statement_views))]
fn emit_otherwise<'p>(
    otherwise: &'p Otherwise<Note>,
    cells: &mut Vec<Cell>,
    c: &Context<'p>,
    to: Destinations,
    free: u32,
) -> Result<(), NoMemory>
    requires { Within to (vec_len cells.old) }
    ensures { OnOk result (reverse cells.new.items ≡ otherwise_code (plan_in c.now) (targets_at (length cells.old.items) to) free (otherwise_of otherwise.now) ++ reverse cells.old.items) }
{
    match otherwise {
        Otherwise::Nothing => Ok(()),
        Otherwise::Else(body) => emit_body(body.as_slice(), cells, c, to, free),
    }
}

/// Branches before what stands there, of which all from `end` on stands behind the statement.
#[cycle(bodies)]
fn emit_branches<'p>(
    branches: &'p [Branch<Note>],
    end: usize,
    cells: &mut Vec<Cell>,
    c: &Context<'p>,
    to: Destinations,
    free: u32,
    line: u32,
) -> Result<(), NoMemory>
    requires behind { Within to end }
    requires before { end ≤ vec_len cells.old }
    ensures { OnOk result (Built (branches_code (plan_in c.now) line (targets_at end to) free (branches_of branches.now)) end cells.old.items cells.new.items) }
{
    let mut i = branches.len();
    'branches: while i > 0 {
        i -= 1;
        emit_branch(&branches[i], end, cells, c, to, free, line)?;
    }
    Ok(())
}

#[cycle(bodies)]
fn emit_branch<'p>(
    branch: &'p Branch<Note>,
    end: usize,
    cells: &mut Vec<Cell>,
    c: &Context<'p>,
    to: Destinations,
    free: u32,
    line: u32,
) -> Result<(), NoMemory>
    requires behind { Within to end }
    requires before { end ≤ vec_len cells.old }
    ensures { OnOk result (Built (branch_before (plan_in c.now) line (targets_at end to) free (branch_of branch.now).0 (branch_of branch.now).1) end cells.old.items cells.new.items) }
{
    let far = narrow(cells.len() - end)?;
    push(cells, Cell::Skips(far, line))?;
    let at = cells.len();
    emit_body(branch.body.as_slice(), cells, c, to, free)?;
    let past = narrow(cells.len() - at)?;
    let Some(past) = past.checked_add(1) else {
        return Err(NoMemory);
    };
    push(cells, Cell::SkipsAt0(past, line))?;
    emit_condition(&branch.condition, cells, c, free, line)?;
    Ok(())
}

/// Cases before what stands there, of which all from `end` on stands behind the statement.
#[cycle(bodies)]
fn emit_cases<'p>(
    cases: &'p [Case<Note>],
    end: usize,
    cells: &mut Vec<Cell>,
    c: &Context<'p>,
    to: Destinations,
    free: u32,
    line: u32,
) -> Result<(), NoMemory>
    requires behind { Within to end }
    requires before { end ≤ vec_len cells.old }
    ensures { OnOk result (Built (cases_code (plan_in c.now) line (targets_at end to) free (cases_of cases.now)) end cells.old.items cells.new.items) }
{
    let mut i = cases.len();
    'cases: while i > 0 {
        i -= 1;
        emit_case(&cases[i], end, cells, c, to, free, line)?;
    }
    Ok(())
}

#[cycle(bodies)]
fn emit_case<'p>(
    case: &'p Case<Note>,
    end: usize,
    cells: &mut Vec<Cell>,
    c: &Context<'p>,
    to: Destinations,
    free: u32,
    line: u32,
) -> Result<(), NoMemory>
    requires behind { Within to end }
    requires before { end ≤ vec_len cells.old }
    ensures { OnOk result (Built (case_before (plan_in c.now) line (targets_at end to) free (case_branch_of case.now).0 (case_branch_of case.now).1) end cells.old.items cells.new.items) }
{
    let far = narrow(cells.len() - end)?;
    push(cells, Cell::Skips(far, line))?;
    let at = cells.len();
    emit_body(case.body.as_slice(), cells, c, to, free)?;
    let past = narrow(cells.len() - at)?;
    let Some(past) = past.checked_add(2) else {
        return Err(NoMemory);
    };
    does(cells, Op::Drop, line)?;
    push(cells, Cell::Skips(past, line))?;
    emit_labels(case.labels.as_slice(), cells, line)?;
    Ok(())
}
