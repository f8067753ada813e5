//! Loops around their bodies, before the code that stands there. The jump back is the first cell before `end`.

ghost use Rattle.std.specs.Prelude.{◌≡◌, ◌≤◌, ◌<◌, ◌+◌, ◌-◌, ◌∷◌, ◌++◌, OnOk, reverse, vec_len};
ghost use Rattle.st_tree.specs.Expression.{expression_of};
ghost use Rattle.stack_code.specs.declared.op.Op.TheVariants as op;
ghost use Rattle.code_cells.specs.declared.cell.Cell.TheVariants.{Does as does, Returns as returns, ReturnsAt0 as returns_at_0};
ghost use Rattle.code_rules.specs.Bodies.{advance_code, within_code};
ghost use Rattle.code_rules.specs.Code.{named_code, value_code};
ghost use Rattle.codegen_tables.specs.Context.{plan_in};
ghost use Rattle.codegen_body.specs.Backward.{Closed, ClosedCount, ClosedUntil, Passed, Rounded};
ghost use Rattle.codegen_body.specs.Counting.{head_code, seen_expression};

use crate::backward::{narrow, turn};
use crate::counting::{CountKinds, emit_advance, emit_head, emit_within};
use crate::steps::emit_condition;
use code_cells::Cell;
use codegen_parts::{does, push, set};
use codegen_tables::Context;
use plc_text::NoMemory;
use st_tree::{Expr, Note, Target};
use stack_code::Op;

/// Past the body and the jump back, where the number on top is 0.
fn emit_past(cells: &mut Vec<Cell>, end: usize, line: u32) -> Result<(), NoMemory>
    ensures { OnOk result (Passed line end cells.old.items cells.new.items) }
{
    if end >= cells.len() {
        return Err(NoMemory);
    }
    let past = narrow(cells.len() - end)?;
    push(cells, Cell::SkipsAt0(past, line))
}

/// The jump back to the tick that comes before all.
fn close_loop(cells: &mut Vec<Cell>, end: usize, line: u32) -> Result<(), NoMemory>
    ensures { OnOk result (Rounded line end cells.old.items cells.new.items) }
{
    if end >= cells.len() {
        return Err(NoMemory);
    }
    let far = narrow(cells.len() - end)?;
    set(cells, end, Cell::Returns(far, line));
    does(cells, Op::Tick, line)
}

/// The condition of WHILE before its body, behind which the jump back stands.
pub fn close_while<'p>(
    e: &'p Expr<Note>,
    end: usize,
    cells: &mut Vec<Cell>,
    c: &Context<'p>,
    free: u32,
    line: u32,
) -> Result<(), NoMemory>
    ensures { OnOk result (Closed (value_code (plan_in c.now) line free (expression_of e.now)) line end cells.old.items cells.new.items) }
{
    emit_past(cells, end, line)?;
    emit_condition(e, cells, c, free, line)?;
    close_loop(cells, end, line)?;
    does(cells, Op::Tick, line)
}

/// The test of REPEAT, which leads back where it does not hold.
pub fn open_repeat<'p>(
    e: &'p Expr<Note>,
    cells: &mut Vec<Cell>,
    c: &Context<'p>,
    free: u32,
    line: u32,
) -> Result<(), NoMemory>
    ensures code { OnOk result (reverse cells.new.items ≡ does op.Tick line ∷ (value_code (plan_in c.now) line free (expression_of e.now) ++ returns_at_0 0 line ∷ reverse cells.old.items)) }
    ensures longer { OnOk result (vec_len cells.old ≤ vec_len cells.new) }
{
    push(cells, Cell::ReturnsAt0(0, line))?;
    emit_condition(e, cells, c, free, line)?;
    does(cells, Op::Tick, line)
}

/// The jump back of REPEAT to the first cell of its body.
pub fn close_repeat(cells: &mut Vec<Cell>, end: usize, line: u32) -> Result<(), NoMemory>
    ensures { OnOk result (ClosedUntil line end cells.old.items cells.new.items) }
{
    if end >= cells.len() {
        return Err(NoMemory);
    }
    let far = narrow(cells.len() - end - 1)?;
    set(cells, end, Cell::ReturnsAt0(far, line));
    does(cells, Op::Tick, line)
}

/// The step of FOR, behind which the jump back stands.
pub fn open_for(
    target: &Target,
    kinds: CountKinds,
    cells: &mut Vec<Cell>,
    c: &Context<'_>,
    free: u32,
    line: u32,
) -> Result<(), NoMemory>
    ensures { OnOk result (reverse cells.new.items ≡ advance_code line free kinds.variable kinds.step (named_code (plan_in c.now) line target.now) ++ returns 0 line ∷ reverse cells.old.items) }
{
    push(cells, Cell::Returns(0, line))?;
    let at = cells.len();
    emit_advance(cells, c, target, kinds, free, line)?;
    turn(cells, at);
    Ok(())
}

fn emit_test(
    target: &Target,
    kinds: CountKinds,
    cells: &mut Vec<Cell>,
    c: &Context<'_>,
    free: u32,
    line: u32,
) -> Result<(), NoMemory>
    ensures { OnOk result (reverse cells.new.items ≡ within_code line free kinds.variable kinds.end kinds.step (named_code (plan_in c.now) line target.now) ++ reverse cells.old.items) }
{
    let at = cells.len();
    emit_within(cells, c, target, kinds, free, line)?;
    turn(cells, at);
    Ok(())
}

/// The test of FOR before its body.
pub fn close_for(
    target: &Target,
    kinds: CountKinds,
    end: usize,
    cells: &mut Vec<Cell>,
    c: &Context<'_>,
    free: u32,
    line: u32,
) -> Result<(), NoMemory>
    ensures { OnOk result (ClosedCount (within_code line free kinds.variable kinds.end kinds.step (named_code (plan_in c.now) line target.now)) line end cells.old.items cells.new.items) }
{
    emit_past(cells, end, line)?;
    emit_test(target, kinds, cells, c, free, line)?;
    close_loop(cells, end, line)
}

/// What FOR does before its first test.
pub fn begin_for<'p>(
    from: &'p Expr<Note>,
    to: &'p Expr<Note>,
    by: &'p Option<Expr<Note>>,
    target: &Target,
    kinds: CountKinds,
    cells: &mut Vec<Cell>,
    c: &Context<'p>,
    free: u32,
    line: u32,
) -> Result<(), NoMemory>
    ensures { OnOk result (reverse cells.new.items ≡ (does op.Tick line ∷ head_code (plan_in c.now) line free kinds (named_code (plan_in c.now) line target.now) (expression_of from.now) (expression_of to.now) (seen_expression by.now)) ++ reverse cells.old.items) }
{
    let at = cells.len();
    does(cells, Op::Tick, line)?;
    emit_head(from, to, by, target, kinds, cells, c, free, line)?;
    turn(cells, at);
    Ok(())
}
