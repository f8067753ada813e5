//! Parts of statements that hold no statement, before the code that stands there.

ghost use Rattle.std.specs.Prelude.{◌≡◌, ◌≤◌, ◌&&◌, ◌-◌, [], ◌∷◌, ◌++◌, OnOk, length, reverse, vec_len};
ghost use Rattle.st_tree.specs.Expression.{arguments_of, expression_of, place_of};
ghost use Rattle.stack_code.specs.declared.op.Op.TheVariants as op;
ghost use Rattle.code_cells.specs.declared.cell.Cell.TheVariants.{Does as does, Skips as skips};
ghost use Rattle.code_rules.specs.Places.{is_large};
ghost use Rattle.code_rules.specs.Code.{is_source, place_code, value_code, way_is_quiet};
ghost use Rattle.code_rules.specs.Bodies.{assigned_code, call_code};
ghost use Rattle.codegen_tables.specs.Context.{plan_in};

use crate::assignments::{emit_attempted, emit_call, emit_moved};
use crate::backward::{narrow, turn};
use code_cells::Cell;
use codegen_expr::emit_value;
use codegen_parts::{does, push};
use codegen_tables::Context;
use plc_text::NoMemory;
use st_tree::{Argument, Expr, Note, Place};
use st_types::StType;
use stack_code::Op;

/// A value before the code that stands there.
pub fn emit_condition<'p>(
    e: &'p Expr<Note>,
    cells: &mut Vec<Cell>,
    c: &Context<'p>,
    free: u32,
    line: u32,
) -> Result<(), NoMemory>
    ensures { OnOk result (reverse cells.new.items ≡ value_code (plan_in c.now) line free (expression_of e.now) ++ reverse cells.old.items) }
{
    let at = cells.len();
    emit_value(e, cells, c, free, line)?;
    turn(cells, at);
    Ok(())
}

/// An assignment.
pub fn emit_assignment<'p>(
    target: &'p Place<Note>,
    e: &'p Expr<Note>,
    kind: &StType,
    cells: &mut Vec<Cell>,
    c: &Context<'p>,
    free: u32,
    line: u32,
) -> Result<(), NoMemory>
    ensures { OnOk result (reverse cells.new.items ≡ (does op.Tick line ∷ assigned_code (plan_in c.now) line free kind.now (place_of target.now).0 (place_of target.now).1 (expression_of e.now) (is_large kind.now && (is_source (expression_of e.now) && way_is_quiet (place_of target.now).1))) ++ reverse cells.old.items) }
{
    let at = cells.len();
    does(cells, Op::Tick, line)?;
    emit_moved(target, e, kind, cells, c, free, line)?;
    turn(cells, at);
    Ok(())
}

/// `?=`.
pub fn emit_attempt<'p>(
    target: &'p Place<Note>,
    e: &'p Expr<Note>,
    kind: &StType,
    cells: &mut Vec<Cell>,
    c: &Context<'p>,
    free: u32,
    line: u32,
) -> Result<(), NoMemory>
    ensures { OnOk result (reverse cells.new.items ≡ (does op.Tick line ∷ (value_code (plan_in c.now) line free (expression_of e.now) ++ does (op.Try ((plan_in c.now).tables.conversion_target kind.now)) line ∷ (place_code (plan_in c.now) line free (place_of target.now).0 (place_of target.now).1 ++ does op.StoreRef line ∷ []))) ++ reverse cells.old.items) }
{
    let at = cells.len();
    does(cells, Op::Tick, line)?;
    emit_attempted(target, e, kind, cells, c, free, line)?;
    turn(cells, at);
    Ok(())
}

/// A call.
pub fn emit_call_statement<'p>(
    place: &'p Place<Note>,
    arguments: &'p [Argument<Note>],
    cells: &mut Vec<Cell>,
    c: &Context<'p>,
    free: u32,
    line: u32,
) -> Result<(), NoMemory>
    ensures { OnOk result (reverse cells.new.items ≡ (does op.Tick line ∷ call_code (plan_in c.now) line free (place_of place.now).0 (place_of place.now).1 (arguments_of arguments.now)) ++ reverse cells.old.items) }
{
    let at = cells.len();
    does(cells, Op::Tick, line)?;
    emit_call(place, arguments, cells, c, free, line)?;
    turn(cells, at);
    Ok(())
}

/// A tick, and a jump to a place behind.
pub fn emit_jump(cells: &mut Vec<Cell>, target: usize, line: u32) -> Result<(), NoMemory>
    requires { target ≤ vec_len cells.old }
    ensures { OnOk result (reverse cells.new.items ≡ (does op.Tick line ∷ skips (length cells.old.items - target) line ∷ []) ++ reverse cells.old.items) }
{
    let far = narrow(cells.len() - target)?;
    push(cells, Cell::Skips(far, line))?;
    does(cells, Op::Tick, line)?;
    Ok(())
}
