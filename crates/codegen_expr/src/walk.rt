//! The walk over expressions and places.

ghost use Rattle.std.specs.Prelude.{◌≡◌, ◌+◌, ◌-◌, ◌<◌, [], ◌∷◌, ◌++◌, MatchOption, None, OnOk, option_map, slice_set, vec_len};
ghost use Rattle.st_types.specs.declared.st_type.StType.{out-StType};
ghost use Rattle.st_tree.specs.Expression.{argument_of, arguments_of, expression_of, expressions_of, place_of, selector_of, selectors_of, tail_of, tails_of};
ghost use Rattle.st_values.specs.Initial.{note_of};
ghost use Rattle.call_steps.specs.Callee.{callee_seen};
ghost use Rattle.routine_tables.specs.Parameters.{parameter_of, parameters_of};
ghost use Rattle.code_cells.specs.declared.cell.Cell.TheVariants.{Does as does, Skips as skips, SkipsAt0 as skips_at_0};
ghost use Rattle.code_rules.specs.Code.{along_code, arguments_code, bound_code, chained_code, converted_code, fetch_code, index_op, indexed_code, named_value_code, negated_code, operand_code, operated_code, outputs_code, passed_code, place_code, selected_code, target_code, value_code};
ghost use Rattle.codegen_tables.specs.Context.{plan_in};
ghost use Rattle.codegen_parts.specs.CallPlans.{entered_code, given_code};
ghost use Rattle.codegen_parts.specs.Steps.{argument_code, one_output_code};
ghost use Rattle.codegen_expr.specs.Ints.{IsInt, NoInt};

use body_uses::{expression_note, last_kind, root_note, selector_note};
use call_steps::{Callee, is_in_out, next_parameter, parameter_named};
use code_cells::Cell;
use codegen_parts::{
    CallPlan, Cursor, ResultPlan, argument_number, behind_argument, call_of, does, emit_constant,
    emit_entry, emit_fetch, emit_followed, emit_give, emit_int, emit_keep, emit_kept,
    emit_negative, emit_operator, emit_output_value, emit_own, emit_part, emit_root, emit_same,
    emit_taken, emit_time, emit_typed, further, index_op, is_base_body, is_conversion, number_kind,
    place_in, push, room_of, set,
};
use codegen_tables::Context;
use plc_text::{NoMemory, Text};
use routine_tables::Parameter;
use run_steps::{elem_of, element_kind};
use st_tree::{Argument, Expr, Note, Operator, Place, Selector, Tail, Target};
use st_types::StType;
use stack_code::Op;

/// The code of an expression, whose lines are this one. The bytes of the locals from `free` on are free.
#[cycle(values)]
#[tactic(auto, using(st_tree::specs::Expression::expression_views))]
pub fn emit_value<'p>(
    e: &'p Expr<Note>,
    cells: &mut Vec<Cell>,
    c: &Context<'p>,
    free: u32,
    line: u32,
) -> Result<(), NoMemory>
    ensures { OnOk result (cells.new.items ≡ cells.old.items ++ value_code (plan_in c.now) line free (expression_of e.now)) }
{
    match e {
        Expr::Int(_, digits) => emit_int(cells, digits, line)?,
        Expr::Typed(_, _, literal) => emit_typed(cells, literal, line)?,
        Expr::Time(_, text) => emit_time(cells, text, line)?,
        Expr::True(_) => does(cells, Op::Push(1), line)?,
        Expr::False(_) => does(cells, Op::Push(0), line)?,
        Expr::Null(_) => does(cells, Op::Null, line)?,
        Expr::Enumerator(a, _, _, _) => emit_constant(cells, &a.target, line)?,
        Expr::Now(_) => does(cells, Op::Now, line)?,
        Expr::Place(a, place) => emit_name(place, a, cells, c, free, line)?,
        Expr::Ref(_, place) => emit_place(place, cells, c, free, line)?,
        Expr::Call(a, place, arguments) => {
            let arguments = arguments.as_slice();
            let block = further(free, room_of(c, &a.kind))?;
            let call = call_of(place, arguments, c, block)?;
            if is_conversion(call.callee) {
                return emit_converted(arguments, &a.kind, cells, c, free, line);
            }
            let kind = &a.kind;
            emit_target(place, call.callee, cells, c, free, line)?;
            emit_own(cells, call.callee, call.block, line)?;
            emit_given(arguments, cells, c, &call, line)?;
            emit_entry(
                cells,
                c,
                &call,
                Some(ResultPlan { free, kind }),
                arguments,
                line,
            )?;
            emit_outputs(arguments, cells, c, &call, line)?;
            emit_taken(cells, block, kind, line)?
        }
        Expr::Paren(_, inner) => emit_value(inner.get(), cells, c, free, line)?,
        Expr::Not(a, inner) => {
            emit_value(inner.get(), cells, c, free, line)?;
            does(cells, Op::Not(elem_of(&a.kind)), line)?
        }
        Expr::Negate(a, inner) => emit_negated(inner.get(), a, cells, c, free, line)?,
        Expr::Chain(_, first, tails) => {
            emit_value(first.get(), cells, c, free, line)?;
            let kind = &expression_note(first.get()).kind;
            emit_chained(tails.as_slice(), kind, cells, c, free, line)?
        }
    }
    Ok(())
}

/// The value of a place; a constant or an enumerator has none.
#[cycle(values)]
#[tactic(auto, using(st_tree::specs::Expression::expression_views))]
fn emit_name<'p>(
    place: &'p Place<Note>,
    a: &Note,
    cells: &mut Vec<Cell>,
    c: &Context<'p>,
    free: u32,
    line: u32,
) -> Result<(), NoMemory>
    ensures { OnOk result (cells.new.items ≡ cells.old.items ++ named_value_code line a.now.target a.now.kind (place_code (plan_in c.now) line free (place_of place.now).0 (place_of place.now).1 ++ fetch_code (plan_in c.now) line free a.now.kind)) }
{
    match &a.target {
        Target::Constant(z) => does(cells, Op::Push(*z), line),
        Target::Enumerator(k) => does(cells, Op::Push(i128::from(*k)), line),
        _ => {
            emit_place(place, cells, c, free, line)?;
            emit_fetch(cells, c, &a.kind, free, line)
        }
    }
}

/// The address of a place.
#[cycle(values)]
#[tactic(auto, using(st_tree::specs::Expression::expression_views))]
pub fn emit_place<'p>(
    place: &'p Place<Note>,
    cells: &mut Vec<Cell>,
    c: &Context<'p>,
    free: u32,
    line: u32,
) -> Result<(), NoMemory>
    ensures { OnOk result (cells.new.items ≡ cells.old.items ++ place_code (plan_in c.now) line free (place_of place.now).0 (place_of place.now).1) }
{
    emit_root(cells, c, &place.root, line)?;
    let kind = &root_note(&place.root).kind;
    emit_along(place.selectors.as_slice(), kind, cells, c, free, line)?;
    Ok(())
}

/// From the address of a value of a type along selectors.
#[cycle(values)]
fn emit_along<'p>(
    selectors: &'p [Selector<Note>],
    kind: &'p StType,
    cells: &mut Vec<Cell>,
    c: &Context<'p>,
    free: u32,
    line: u32,
) -> Result<(), NoMemory>
    ensures { OnOk result (cells.new.items ≡ cells.old.items ++ along_code (plan_in c.now) line free (selectors_of selectors.now) kind.now) }
{
    let mut at = kind;
    for selector in selectors {
        emit_selected(selector, at, cells, c, free, line)?;
        at = &selector_note(selector).kind;
    }
    Ok(())
}

#[cycle(values)]
#[tactic(auto, using(st_tree::specs::Expression::expression_views))]
fn emit_selected<'p>(
    selector: &'p Selector<Note>,
    kind: &'p StType,
    cells: &mut Vec<Cell>,
    c: &Context<'p>,
    free: u32,
    line: u32,
) -> Result<(), NoMemory>
    ensures { OnOk result (cells.new.items ≡ cells.old.items ++ selected_code (plan_in c.now) line free (selector_of selector.now) kind.now) }
{
    match selector {
        Selector::Field(a, _) => emit_part(cells, c, kind, &a.target, line)?,
        Selector::Index(_, indices) => {
            emit_indexed(indices.as_slice(), kind, cells, c, free, line)?
        }
        Selector::Target(_) => emit_followed(cells, kind, line)?,
    }
    Ok(())
}

/// Indices, of which each is one of the elements that those before it lead to.
#[cycle(values)]
fn emit_indexed<'p>(
    indices: &'p [Expr<Note>],
    kind: &'p StType,
    cells: &mut Vec<Cell>,
    c: &Context<'p>,
    free: u32,
    line: u32,
) -> Result<(), NoMemory>
    ensures { OnOk result (cells.new.items ≡ cells.old.items ++ indexed_code (plan_in c.now) line free (expressions_of indices.now) kind.now) }
{
    let mut at = kind;
    for index in indices {
        emit_index(index, at, cells, c, free, line)?;
        at = element_kind(at);
    }
    Ok(())
}

#[cycle(values)]
fn emit_index<'p>(
    index: &'p Expr<Note>,
    kind: &StType,
    cells: &mut Vec<Cell>,
    c: &Context<'p>,
    free: u32,
    line: u32,
) -> Result<(), NoMemory>
    ensures { OnOk result (cells.new.items ≡ cells.old.items ++ (value_code (plan_in c.now) line free (expression_of index.now) ++ does (index_op (plan_in c.now) (out-StType kind.now)) line ∷ [])) }
{
    emit_value(index, cells, c, free, line)?;
    does(cells, index_op(c, kind), line)
}

/// `-` before a number is one number.
#[cycle(values)]
#[tactic(auto, using(st_tree::specs::Expression::expression_views))]
fn emit_negated<'p>(
    inner: &'p Expr<Note>,
    a: &Note,
    cells: &mut Vec<Cell>,
    c: &Context<'p>,
    free: u32,
    line: u32,
) -> Result<(), NoMemory>
    ensures { OnOk result (cells.new.items ≡ cells.old.items ++ negated_code line a.now (expression_of inner.now) (value_code (plan_in c.now) line free (expression_of inner.now))) }
{
    if let Some(digits) = int_digits(inner) {
        return emit_negative(cells, &a.kind, digits, line);
    }
    emit_value(inner, cells, c, free, line)?;
    does(cells, Op::Neg(elem_of(&a.kind)), line)
}

/// The digits of a number.
#[tactic(auto, using(st_tree::specs::Expression::expression_views))]
fn int_digits(e: &Expr<Note>) -> Option<&Text>
    ensures { MatchOption result (NoInt (expression_of e.now)) (λ digits. IsInt digits.now (expression_of e.now)) }
{
    match e {
        Expr::Int(_, digits) => Some(digits),
        Expr::Typed(_, _, _) => None,
        Expr::Time(_, _) => None,
        Expr::True(_) => None,
        Expr::False(_) => None,
        Expr::Null(_) => None,
        Expr::Place(_, _) => None,
        Expr::Call(_, _, _) => None,
        Expr::Enumerator(_, _, _, _) => None,
        Expr::Ref(_, _) => None,
        Expr::Now(_) => None,
        Expr::Paren(_, _) => None,
        Expr::Not(_, _) => None,
        Expr::Negate(_, _) => None,
        Expr::Chain(_, _, _) => None,
    }
}

/// Operators with their right operands, behind a left operand of a type.
#[cycle(values)]
fn emit_chained<'p>(
    tails: &'p [Tail<Note>],
    kind: &'p StType,
    cells: &mut Vec<Cell>,
    c: &Context<'p>,
    free: u32,
    line: u32,
) -> Result<(), NoMemory>
    ensures { OnOk result (cells.new.items ≡ cells.old.items ++ chained_code (plan_in c.now) line free kind.now (tails_of tails.now)) }
{
    let mut left = kind;
    for tail in tails {
        emit_tail(tail, left, cells, c, free, line)?;
        left = &tail.note.kind;
    }
    Ok(())
}

/// A right operand is evaluated only where the left one does not decide.
#[cycle(values)]
#[tactic(auto, using(st_tree::specs::Expression::expression_views))]
fn emit_tail<'p>(
    tail: &'p Tail<Note>,
    left: &StType,
    cells: &mut Vec<Cell>,
    c: &Context<'p>,
    free: u32,
    line: u32,
) -> Result<(), NoMemory>
    ensures { OnOk result (cells.new.items ≡ cells.old.items ++ operated_code line (tail_of tail.now).1 left.now (tail_of tail.now).0.kind (value_code (plan_in c.now) line free (tail_of tail.now).2)) }
{
    match tail.operator {
        Operator::AndThen => {
            let at = cells.len();
            does(cells, Op::Dup, line)?;
            push(cells, Cell::SkipsAt0(0, line))?;
            does(cells, Op::Drop, line)?;
            emit_value(&tail.operand, cells, c, free, line)?;
            close_and(cells, at, line)
        }
        Operator::OrElse => {
            let at = cells.len();
            does(cells, Op::Dup, line)?;
            push(cells, Cell::SkipsAt0(1, line))?;
            push(cells, Cell::Skips(0, line))?;
            does(cells, Op::Drop, line)?;
            emit_value(&tail.operand, cells, c, free, line)?;
            close_or(cells, at, line)
        }
        _ => {
            emit_value(&tail.operand, cells, c, free, line)?;
            emit_operator(cells, tail.operator, left, &tail.note.kind, line)
        }
    }
}

/// A conversion.
#[cycle(values)]
#[tactic(auto, using(st_tree::specs::Expression::expression_views))]
fn emit_converted<'p>(
    arguments: &'p [Argument<Note>],
    kind: &StType,
    cells: &mut Vec<Cell>,
    c: &Context<'p>,
    free: u32,
    line: u32,
) -> Result<(), NoMemory>
    ensures { OnOk result (cells.new.items ≡ cells.old.items ++ converted_code line (arguments_of arguments.now) kind.now (operand_code (plan_in c.now) line free (arguments_of arguments.now))) }
{
    match arguments.first() {
        Some(first) => match first {
            Argument::Positional(value) => {
                emit_value(value, cells, c, free, line)?;
                let from = number_kind(&expression_note(value).kind);
                does(cells, Op::Conv(from, elem_of(kind)), line)
            }
            Argument::Input(_, _, _) => Ok(()),
            Argument::Output(_, _, _, _) => Ok(()),
        },
        None => Ok(()),
    }
}

/// The operand of a conversion.
#[tactic(auto, using(st_tree::specs::Expression::expression_views))]
pub fn emit_operand<'p>(
    arguments: &'p [Argument<Note>],
    cells: &mut Vec<Cell>,
    c: &Context<'p>,
    free: u32,
    line: u32,
) -> Result<(), NoMemory>
    ensures { OnOk result (cells.new.items ≡ cells.old.items ++ operand_code (plan_in c.now) line free (arguments_of arguments.now)) }
{
    match arguments.first() {
        Some(first) => match first {
            Argument::Positional(value) => emit_value(value, cells, c, free, line),
            Argument::Input(_, _, _) => Ok(()),
            Argument::Output(_, _, _, _) => Ok(()),
        },
        None => Ok(()),
    }
}

/// The address of what is called, or NULL.
#[cycle(values)]
fn emit_target<'p>(
    place: &'p Place<Note>,
    callee: Callee<'_>,
    cells: &mut Vec<Cell>,
    c: &Context<'p>,
    free: u32,
    line: u32,
) -> Result<(), NoMemory>
    ensures { OnOk result (cells.new.items ≡ cells.old.items ++ target_code line (callee_seen callee.entry) (place_code (plan_in c.now) line free (place_of place.now).0 (place_of place.now).1)) }
{
    match callee {
        Callee::Function(_) => does(cells, Op::Null, line),
        Callee::Conversion => emit_place(place, cells, c, free, line),
        Callee::Method(_, _) => emit_place(place, cells, c, free, line),
        Callee::Body(_) => emit_place(place, cells, c, free, line),
    }
}

/// The arguments of a call, kept in its block.
#[cycle(values)]
fn emit_given<'p>(
    arguments: &'p [Argument<Note>],
    cells: &mut Vec<Cell>,
    c: &Context<'p>,
    call: &CallPlan<'_>,
    line: u32,
) -> Result<(), NoMemory>
    ensures { OnOk result (cells.new.items ≡ cells.old.items ++ given_code (plan_in c.now) line call.now (arguments_of arguments.now)) }
{
    if is_base_body(call.callee) {
        return emit_same(cells, c, call.block, call.parameters, line);
    }
    emit_arguments(arguments, cells, c, call, line)
}

#[cycle(values)]
fn emit_arguments<'p>(
    arguments: &'p [Argument<Note>],
    cells: &mut Vec<Cell>,
    c: &Context<'p>,
    call: &CallPlan<'_>,
    line: u32,
) -> Result<(), NoMemory>
    ensures { OnOk result (cells.new.items ≡ cells.old.items ++ arguments_code (plan_in c.now) line call.now.block call.now.free (parameters_of call.now.parameters.now) 0 (parameters_of call.now.parameters.now) (arguments_of arguments.now)) }
{
    let mut cursor = Cursor {
        number: 0,
        left: call.parameters,
        free: call.free,
    };
    for argument in arguments {
        emit_argument(argument, cells, c, call, cursor, line)?;
        cursor = behind_argument(c, cursor, call.parameters, argument)?;
    }
    Ok(())
}

/// One argument.
#[cycle(values)]
#[tactic(auto, using(st_tree::specs::Expression::expression_views))]
fn emit_argument<'p>(
    argument: &'p Argument<Note>,
    cells: &mut Vec<Cell>,
    c: &Context<'p>,
    call: &CallPlan<'_>,
    cursor: Cursor<'_>,
    line: u32,
) -> Result<(), NoMemory>
    ensures { OnOk result (cells.new.items ≡ cells.old.items ++ argument_code (plan_in c.now) line call.now.block cursor.entry.free (parameters_of call.now.parameters.now) cursor.entry.number (parameters_of cursor.entry.left.now) (argument_of argument.now)) }
{
    let number = argument_number(cursor.number, cursor.left, argument)?;
    let at = place_in(call.block, number)?;
    match argument {
        Argument::Positional(value) => {
            let parameter = next_parameter(cursor.left);
            emit_passed(value, parameter, at, cells, c, cursor.free, line)
        }
        Argument::Input(a, _, value) => {
            let parameter = parameter_named(call.parameters, a);
            emit_passed(value, parameter, at, cells, c, cursor.free, line)
        }
        Argument::Output(_, _, _, _) => Ok(()),
    }
}

/// A value or a place for a parameter.
#[cycle(values)]
fn emit_passed<'p>(
    value: &'p Expr<Note>,
    parameter: Option<Parameter>,
    at: u32,
    cells: &mut Vec<Cell>,
    c: &Context<'p>,
    free: u32,
    line: u32,
) -> Result<(), NoMemory>
    ensures { OnOk result (cells.new.items ≡ cells.old.items ++ passed_code line (option_map parameter_of parameter) at (note_of (expression_of value.now)).kind (value_code (plan_in c.now) line free (expression_of value.now)) (bound_code (plan_in c.now) line free (expression_of value.now))) }
{
    let Some(parameter) = parameter else {
        return Ok(());
    };
    if is_in_out(parameter.sort) {
        emit_bound(value, cells, c, free, line)?;
        return emit_kept(cells, at, line);
    }
    emit_value(value, cells, c, free, line)?;
    emit_give(cells, at, &expression_note(value).kind, line)
}

/// The address of a place that is bound to an in-out.
#[cycle(values)]
#[tactic(auto, using(st_tree::specs::Expression::expression_views))]
fn emit_bound<'p>(
    e: &'p Expr<Note>,
    cells: &mut Vec<Cell>,
    c: &Context<'p>,
    free: u32,
    line: u32,
) -> Result<(), NoMemory>
    ensures { OnOk result (cells.new.items ≡ cells.old.items ++ bound_code (plan_in c.now) line free (expression_of e.now)) }
{
    match e {
        Expr::Place(_, place) => emit_place(place, cells, c, free, line),
        Expr::Int(_, _) => Ok(()),
        Expr::Typed(_, _, _) => Ok(()),
        Expr::Time(_, _) => Ok(()),
        Expr::True(_) => Ok(()),
        Expr::False(_) => Ok(()),
        Expr::Null(_) => Ok(()),
        Expr::Call(_, _, _) => Ok(()),
        Expr::Enumerator(_, _, _, _) => Ok(()),
        Expr::Ref(_, _) => Ok(()),
        Expr::Now(_) => Ok(()),
        Expr::Paren(_, _) => Ok(()),
        Expr::Not(_, _) => Ok(()),
        Expr::Negate(_, _) => Ok(()),
        Expr::Chain(_, _, _) => Ok(()),
    }
}

/// The outputs of a call, from its block or its instance to their places.
#[cycle(values)]
fn emit_outputs<'p>(
    arguments: &'p [Argument<Note>],
    cells: &mut Vec<Cell>,
    c: &Context<'p>,
    call: &CallPlan<'_>,
    line: u32,
) -> Result<(), NoMemory>
    ensures { OnOk result (cells.new.items ≡ cells.old.items ++ outputs_code (plan_in c.now) line call.now.block call.now.free (parameters_of call.now.parameters.now) call.now.whole.now (arguments_of arguments.now)) }
{
    for argument in arguments {
        emit_output(argument, cells, c, call, line)?;
    }
    Ok(())
}

#[cycle(values)]
#[tactic(auto, using(st_tree::specs::Expression::expression_views))]
fn emit_output<'p>(
    argument: &'p Argument<Note>,
    cells: &mut Vec<Cell>,
    c: &Context<'p>,
    call: &CallPlan<'_>,
    line: u32,
) -> Result<(), NoMemory>
    ensures { OnOk result (cells.new.items ≡ cells.old.items ++ one_output_code (plan_in c.now) line call.now.block call.now.free (parameters_of call.now.parameters.now) call.now.whole.now (argument_of argument.now)) }
{
    match argument {
        Argument::Output(a, _, _, place) => {
            let kind = last_kind(&root_note(&place.root).kind, place.selectors.as_slice());
            let free = further(call.free, room_of(c, kind))?;
            emit_output_value(cells, c, call, a, kind, line)?;
            emit_place(place, cells, c, free, line)?;
            emit_keep(cells, c, kind, line)
        }
        Argument::Positional(_) => Ok(()),
        Argument::Input(_, _, _) => Ok(()),
    }
}

/// A call without its result: the target, the arguments, a tick, the call, and then the outputs. The block lies at `call.block`, and what is
/// free while the target is found begins at `free`.
pub fn emit_called<'p>(
    place: &'p Place<Note>,
    arguments: &'p [Argument<Note>],
    cells: &mut Vec<Cell>,
    c: &Context<'p>,
    call: &CallPlan<'_>,
    free: u32,
    line: u32,
) -> Result<(), NoMemory>
    ensures { OnOk result (cells.new.items ≡ cells.old.items ++ entered_code (plan_in c.now) line free call.now None (place_of place.now).0 (place_of place.now).1 (arguments_of arguments.now)) }
{
    emit_target(place, call.callee, cells, c, free, line)?;
    emit_own(cells, call.callee, call.block, line)?;
    emit_given(arguments, cells, c, call, line)?;
    emit_entry(cells, c, call, None, arguments, line)?;
    emit_outputs(arguments, cells, c, call, line)
}

/// The jump two cells in goes past all that stands behind the drop.
fn close_and(cells: &mut Vec<Cell>, at: usize, line: u32) -> Result<(), NoMemory>
    requires { at + 2 < vec_len cells.old }
    ensures { OnOk result (cells.new.items ≡ slice_set cells.old.items (at + 1) (skips_at_0 (vec_len cells.old - at - 2) line)) }
{
    let n = u32::try_from(cells.len() - at - 2).map_err(|_| NoMemory)?;
    set(cells, at + 1, Cell::SkipsAt0(n, line));
    Ok(())
}

fn close_or(cells: &mut Vec<Cell>, at: usize, line: u32) -> Result<(), NoMemory>
    requires { at + 3 < vec_len cells.old }
    ensures { OnOk result (cells.new.items ≡ slice_set cells.old.items (at + 2) (skips (vec_len cells.old - at - 3) line)) }
{
    let n = u32::try_from(cells.len() - at - 3).map_err(|_| NoMemory)?;
    set(cells, at + 2, Cell::Skips(n, line));
    Ok(())
}
