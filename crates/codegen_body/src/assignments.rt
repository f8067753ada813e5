//! Assignments, and calls as statements, from the first cell to the last.

ghost use Rattle.std.specs.Prelude.{◌≡◌, ◌&&◌, ◌+◌, [], ◌∷◌, ◌++◌, false, true, MatchOption, OnOk};
ghost use Rattle.st_tree.specs.Expression.{arguments_of, expression_of, place_of};
ghost use Rattle.st_values.specs.Initial.{note_of};
ghost use Rattle.stack_code.specs.declared.op.Op.TheVariants as op;
ghost use Rattle.code_cells.specs.declared.cell.Cell.TheVariants.{Does as does};
ghost use Rattle.code_rules.specs.Places as sizes;
ghost use Rattle.code_rules.specs.Code.{is_source, keep_code, place_code, value_code, way_is_quiet};
ghost use Rattle.code_rules.specs.Bodies.{assigned_code, call_code};
ghost use Rattle.codegen_tables.specs.Context.{plan_in};
ghost use Rattle.codegen_expr.specs.Sources.{IsSource};
ghost use Rattle.codegen_body.specs.Backward.{dropped_code};

use body_uses::expression_note;
use code_cells::Cell;
use codegen_expr::{emit_called, emit_operand, emit_place, emit_value, source, way_is_quiet};
use codegen_parts::{call_of, does, emit_keep, further, is_conversion, is_large, room_of};
use codegen_tables::Context;
use plc_text::NoMemory;
use st_tree::{Argument, Expr, Note, Place};
use st_types::StType;
use stack_code::Op;

/// The place from which a large value is copied at once, as finding its target calls nothing.
#[tactic(auto, using(st_tree::specs::Expression::expression_views))]
pub fn copied_from<'p>(
    target: &Place<Note>,
    e: &'p Expr<Note>,
    kind: &StType,
) -> Option<&'p Place<Note>>
    ensures { MatchOption result ((sizes.is_large kind.now && (is_source (expression_of e.now) && way_is_quiet (place_of target.now).1)) ≡ false)
        (λ place. ((sizes.is_large kind.now && (is_source (expression_of e.now) && way_is_quiet (place_of target.now).1)) ≡ true) × IsSource (expression_of e.now) (place_of place.now).0 (place_of place.now).1) }
{
    if !is_large(kind) {
        return None;
    }
    if !way_is_quiet(target.selectors.as_slice()) {
        return None;
    }
    source(e)
}

/// A copy from place to place.
fn emit_copied<'p>(
    from: &'p Place<Note>,
    target: &'p Place<Note>,
    kind: &StType,
    cells: &mut Vec<Cell>,
    c: &Context<'p>,
    free: u32,
    line: u32,
) -> Result<(), NoMemory>
    ensures { OnOk result (cells.new.items ≡ cells.old.items ++ (place_code (plan_in c.now) line free (place_of from.now).0 (place_of from.now).1 ++ (place_code (plan_in c.now) line free (place_of target.now).0 (place_of target.now).1 ++ keep_code (plan_in c.now) line kind.now))) }
{
    emit_place(from, cells, c, free, line)?;
    emit_place(target, cells, c, free, line)?;
    emit_keep(cells, c, kind, line)
}

/// A value that is kept while its target is found.
fn emit_kept<'p>(
    e: &'p Expr<Note>,
    target: &'p Place<Note>,
    kind: &StType,
    cells: &mut Vec<Cell>,
    c: &Context<'p>,
    free: u32,
    line: u32,
) -> Result<(), NoMemory>
    ensures { OnOk result (cells.new.items ≡ cells.old.items ++ (value_code (plan_in c.now) line free (expression_of e.now) ++ (place_code (plan_in c.now) line (free + sizes.room_of (plan_in c.now).size_of (note_of (expression_of e.now)).kind) (place_of target.now).0 (place_of target.now).1 ++ keep_code (plan_in c.now) line kind.now))) }
{
    let behind = further(free, room_of(c, &expression_note(e).kind))?;
    emit_value(e, cells, c, free, line)?;
    emit_place(target, cells, c, behind, line)?;
    emit_keep(cells, c, kind, line)
}

/// An assignment without its tick.
pub fn emit_moved<'p>(
    target: &'p Place<Note>,
    e: &'p Expr<Note>,
    kind: &StType,
    cells: &mut Vec<Cell>,
    c: &Context<'p>,
    free: u32,
    line: u32,
) -> Result<(), NoMemory>
    ensures { OnOk result (cells.new.items ≡ cells.old.items ++ assigned_code (plan_in c.now) line free kind.now (place_of target.now).0 (place_of target.now).1 (expression_of e.now) (sizes.is_large kind.now && (is_source (expression_of e.now) && way_is_quiet (place_of target.now).1))) }
{
    match copied_from(target, e, kind) {
        Some(from) => emit_copied(from, target, kind, cells, c, free, line),
        None => emit_kept(e, target, kind, cells, c, free, line),
    }
}

/// `?=` without its tick.
pub fn emit_attempted<'p>(
    target: &'p Place<Note>,
    e: &'p Expr<Note>,
    kind: &StType,
    cells: &mut Vec<Cell>,
    c: &Context<'p>,
    free: u32,
    line: u32,
) -> Result<(), NoMemory>
    ensures { OnOk result (cells.new.items ≡ cells.old.items ++ (value_code (plan_in c.now) line free (expression_of e.now) ++ does (op.Try ((plan_in c.now).tables.conversion_target kind.now)) line ∷ (place_code (plan_in c.now) line free (place_of target.now).0 (place_of target.now).1 ++ does op.StoreRef line ∷ []))) }
{
    let number = c.calls.target(kind)?;
    emit_value(e, cells, c, free, line)?;
    does(cells, Op::Try(number), line)?;
    emit_place(target, cells, c, free, line)?;
    does(cells, Op::StoreRef, line)
}

/// A conversion of which nothing is left.
fn emit_dropped<'p>(
    arguments: &'p [Argument<Note>],
    cells: &mut Vec<Cell>,
    c: &Context<'p>,
    free: u32,
    line: u32,
) -> Result<(), NoMemory>
    ensures { OnOk result (cells.new.items ≡ cells.old.items ++ dropped_code (plan_in c.now) line free (arguments_of arguments.now)) }
{
    emit_operand(arguments, cells, c, free, line)?;
    does(cells, Op::Drop, line)
}

/// A call without its tick.
pub fn emit_call<'p>(
    place: &'p Place<Note>,
    arguments: &'p [Argument<Note>],
    cells: &mut Vec<Cell>,
    c: &Context<'p>,
    free: u32,
    line: u32,
) -> Result<(), NoMemory>
    ensures { OnOk result (cells.new.items ≡ cells.old.items ++ call_code (plan_in c.now) line free (place_of place.now).0 (place_of place.now).1 (arguments_of arguments.now)) }
{
    let call = call_of(place, arguments, c, free)?;
    if is_conversion(call.callee) {
        return emit_dropped(arguments, cells, c, free, line);
    }
    emit_called(place, arguments, cells, c, &call, free, line)
}
