//! What statements use.

ghost use Rattle.std.specs.Prelude.{◌≡◌, ◌++◌, option_map, IfOk, OnOk};
ghost use Rattle.st_tree.specs.Expression.{expression_of, place_of};
ghost use Rattle.st_tree.specs.Statement.{statement_of, statements_of, branch_of, branches_of, case_branch_of, cases_of, otherwise_of};
ghost use Rattle.st_values.specs.Initial as initial_words;
ghost use Rattle.st_values.specs.View.{program_of};
ghost use Rattle.st_meaning.specs.st_frame.Use as words;
ghost use Rattle.program_tables.specs.Routine.{routine_of};
ghost use Rattle.body_uses.specs.Uses.{uses_of, Knows};
ghost use Rattle.body_uses.specs.Private.Statements.{assigned_uses, range_uses};

use crate::calls::Callables;
use crate::expressions::{add_expression, add_place, add_whole_call};
use crate::owners::{add_changed, add_counted};
use crate::places::{add_name, add_tried, expression_note};
use crate::uses::Use;
use plc_text::NoMemory;
use program_tables::{RoutineId, statements};
use st_tree::{Branch, Case, Expr, Note, Otherwise, Place, Program, Stmt};
use std::alloc::Global;

/// What the text of a routine uses, in the order of the text, what stands behind RETURN too. The tables are those of the program.
pub fn body_uses<'p>(
    alloc: Global,
    c: Callables<'_, '_>,
    program: &'p Program,
    id: RoutineId,
) -> Result<Vec<Use<'p>>, NoMemory>
    requires known { Knows c }
    requires same { c.tables.now ≡ program.now }
    ensures { IfOk result (λ uses. uses_of uses.items ≡ words.routine_uses (program_of program.now) (routine_of program.now id)) }
{
    let mut uses = Vec::new(alloc);
    add_body(statements(program, id), &mut uses, c)?;
    Ok(uses)
}

#[cycle(statements)]
fn add_statement<'p>(
    statement: &'p Stmt<Note>,
    uses: &mut Vec<Use<'p>>,
    c: Callables<'_, '_>,
) -> Result<(), NoMemory>
    requires { Knows c }
    ensures { OnOk result (uses_of uses.new.items ≡ uses_of uses.old.items ++ words.statement_uses (program_of c.entry.tables.now) (statement_of statement.now)) }
{
    match statement {
        Stmt::Empty(_) => {}
        Stmt::Exit(_) => {}
        Stmt::Continue(_) => {}
        Stmt::Return(_) => {}
        Stmt::Assign(_, _, place, value) => add_assigned(uses, c, place, value)?,
        Stmt::Attempt(_, _, place, value) => add_attempt(uses, c, place, value)?,
        Stmt::Call(_, _, place, arguments) => add_whole_call(uses, c, place, arguments.as_slice())?,
        Stmt::If(_, branches, otherwise) => {
            add_branches(branches.as_slice(), uses, c)?;
            add_otherwise(otherwise, uses, c)?
        }
        Stmt::Case(_, selector, cases, otherwise) => {
            add_expression(selector, uses, c)?;
            add_cases(cases.as_slice(), uses, c)?;
            add_otherwise(otherwise, uses, c)?
        }
        Stmt::For(_, counter, _, from, to, by, body) => {
            let range = Range {
                counter,
                from,
                to,
                by,
            };
            add_range(uses, c, range)?;
            add_body(body.as_slice(), uses, c)?
        }
        Stmt::While(_, condition, body) => {
            add_expression(condition, uses, c)?;
            add_body(body.as_slice(), uses, c)?
        }
        Stmt::Repeat(_, body, condition) => {
            add_body(body.as_slice(), uses, c)?;
            add_expression(condition, uses, c)?
        }
    }
    Ok(())
}

/// Adds what `place := value` uses.
#[tactic(auto, using(st_tree::specs::Expression::expression_views))]
fn add_assigned<'p>(
    uses: &mut Vec<Use<'p>>,
    c: Callables<'_, '_>,
    place: &'p Place<Note>,
    value: &'p Expr<Note>,
) -> Result<(), NoMemory>
    requires { Knows c }
    ensures { OnOk result (uses_of uses.new.items ≡ uses_of uses.old.items ++ assigned_uses (program_of c.entry.tables.now) (place_of place.now).0 (place_of place.now).1 (expression_of value.now)) }
{
    add_changed(uses, &place.root, place.selectors.as_slice())?;
    add_place(place, uses, c)?;
    add_expression(value, uses, c)?;
    Ok(())
}

/// Adds what `place ?= value` uses: the value is tried.
fn add_attempt<'p>(
    uses: &mut Vec<Use<'p>>,
    c: Callables<'_, '_>,
    place: &'p Place<Note>,
    value: &'p Expr<Note>,
) -> Result<(), NoMemory>
    requires { Knows c }
    ensures { OnOk result (uses_of uses.new.items ≡ uses_of uses.old.items ++ (words.tried (program_of c.entry.tables.now) (initial_words.note_of (expression_of value.now)).kind ++ assigned_uses (program_of c.entry.tables.now) (place_of place.now).0 (place_of place.now).1 (expression_of value.now))) }
{
    add_tried(uses, &expression_note(value).kind)?;
    add_assigned(uses, c, place, value)?;
    Ok(())
}

fn add_step<'p>(
    uses: &mut Vec<Use<'p>>,
    c: Callables<'_, '_>,
    step: &'p Option<Expr<Note>>,
) -> Result<(), NoMemory>
    requires { Knows c }
    ensures { OnOk result (uses_of uses.new.items ≡ uses_of uses.old.items ++ words.step_uses (program_of c.entry.tables.now) (option_map expression_of step.now)) }
{
    if let Some(step) = step {
        add_expression(step, uses, c)?;
    }
    Ok(())
}

/// The head of a FOR: its counter, its bounds and its step.
#[derive(Clone, Copy)]
struct Range<'p> {
    counter: &'p Note,
    from: &'p Expr<Note>,
    to: &'p Expr<Note>,
    by: &'p Option<Expr<Note>>,
}

/// Adds what the head of a FOR uses.
fn add_range<'p>(
    uses: &mut Vec<Use<'p>>,
    c: Callables<'_, '_>,
    range: Range<'p>,
) -> Result<(), NoMemory>
    requires { Knows c }
    ensures { OnOk result (uses_of uses.new.items ≡ uses_of uses.old.items ++ range_uses (program_of c.entry.tables.now) range.entry) }
{
    add_counted(uses, range.counter.target)?;
    add_name(uses, range.counter.target)?;
    add_expression(range.from, uses, c)?;
    add_expression(range.to, uses, c)?;
    add_step(uses, c, range.by)?;
    Ok(())
}

#[cycle(statements)]
fn add_body<'p>(
    body: &'p [Stmt<Note>],
    uses: &mut Vec<Use<'p>>,
    c: Callables<'_, '_>,
) -> Result<(), NoMemory>
    requires { Knows c }
    ensures { OnOk result (uses_of uses.new.items ≡ uses_of uses.old.items ++ words.body_uses (program_of c.entry.tables.now) (statements_of body.now)) }
{
    for statement in body {
        add_statement(statement, uses, c)?;
    }
    Ok(())
}

#[cycle(statements)]
fn add_branch<'p>(
    branch: &'p Branch<Note>,
    uses: &mut Vec<Use<'p>>,
    c: Callables<'_, '_>,
) -> Result<(), NoMemory>
    requires { Knows c }
    ensures { OnOk result (uses_of uses.new.items ≡ uses_of uses.old.items ++ (words.expression_uses (program_of c.entry.tables.now) (branch_of branch.now).0 ++ words.body_uses (program_of c.entry.tables.now) (branch_of branch.now).1)) }
{
    add_expression(&branch.condition, uses, c)?;
    add_body(branch.body.as_slice(), uses, c)?;
    Ok(())
}

#[cycle(statements)]
fn add_branches<'p>(
    branches: &'p [Branch<Note>],
    uses: &mut Vec<Use<'p>>,
    c: Callables<'_, '_>,
) -> Result<(), NoMemory>
    requires { Knows c }
    ensures { OnOk result (uses_of uses.new.items ≡ uses_of uses.old.items ++ words.branch_uses (program_of c.entry.tables.now) (branches_of branches.now)) }
{
    for branch in branches {
        add_branch(branch, uses, c)?;
    }
    Ok(())
}

#[cycle(statements)]
fn add_case<'p>(
    case: &'p Case<Note>,
    uses: &mut Vec<Use<'p>>,
    c: Callables<'_, '_>,
) -> Result<(), NoMemory>
    requires { Knows c }
    ensures { OnOk result (uses_of uses.new.items ≡ uses_of uses.old.items ++ words.body_uses (program_of c.entry.tables.now) (case_branch_of case.now).1) }
{
    add_body(case.body.as_slice(), uses, c)
}

#[cycle(statements)]
fn add_cases<'p>(
    cases: &'p [Case<Note>],
    uses: &mut Vec<Use<'p>>,
    c: Callables<'_, '_>,
) -> Result<(), NoMemory>
    requires { Knows c }
    ensures { OnOk result (uses_of uses.new.items ≡ uses_of uses.old.items ++ words.case_uses (program_of c.entry.tables.now) (cases_of cases.now)) }
{
    for case in cases {
        add_case(case, uses, c)?;
    }
    Ok(())
}

#[cycle(statements)]
fn add_otherwise<'p>(
    otherwise: &'p Otherwise<Note>,
    uses: &mut Vec<Use<'p>>,
    c: Callables<'_, '_>,
) -> Result<(), NoMemory>
    requires { Knows c }
    ensures { OnOk result (uses_of uses.new.items ≡ uses_of uses.old.items ++ words.otherwise_uses (program_of c.entry.tables.now) (otherwise_of otherwise.now)) }
{
    match otherwise {
        Otherwise::Nothing => {}
        Otherwise::Else(body) => add_body(body.as_slice(), uses, c)?,
    }
    Ok(())
}
