//! What is known of a call before it is emitted, and the code of its parts that hold no expression.

ghost use Rattle.std.specs.Prelude.{◌≡◌, ◌+◌, ◌*◌, ◌∷◌, [], ◌++◌, if◌then◌else◌, length, option_map, IfOk, None, OnOk, Some};
ghost use Rattle.st_tree.specs.Expression.{argument_of, arguments_of, place_of};
ghost use Rattle.stack_code.specs.declared.op.Op.TheVariants as op;
ghost use Rattle.st_meaning.specs.Call as words;
ghost use Rattle.st_meaning.specs.st_frame.Promise.Calls as promise;
ghost use Rattle.call_steps.specs.Callee.{callee_seen};
ghost use Rattle.routine_tables.specs.Parameters.{parameter_of, parameters_of};
ghost use Rattle.code_cells.specs.declared.cell.Cell.TheVariants.{Does as does};
ghost use Rattle.code_rules.specs.Places as sizes;
ghost use Rattle.code_rules.specs.Code.{behind_outputs, bit, call_op, give_code, given_bits, is_conversion, keeps_own, large_code, mask_code, mask_of, output_code, output_rooms, own_code, passed_room, same_bits, same_code, taken_code};
ghost use Rattle.codegen_tables.specs.Context.{plan_in};
ghost use Rattle.codegen_parts.specs.CallPlans.{entry_code, result_code, IsCallPlan};
ghost use Rattle.codegen_parts.specs.Cursors.{IsBehind};
ghost use Rattle.codegen_parts.specs.Steps as steps;
ghost use Rattle.codegen_parts.specs.Steps.{is_base_body, member_code, one_same_code};

use crate::operators::{is_held, is_large, number_kind};
use crate::places::{emit_local, emit_widened};
use crate::pushes::does;
use body_uses::{expression_note, last_kind, receiver, root_note};
use call_steps::{
    Callee, Search, behind_next, callee_of, is_in_out, is_output, next_parameter, number_to,
    parameter_named, parameter_number,
};
use code_cells::Cell;
use codegen_tables::{Context, call_op, called_parameters, field_of, kind_of, size_of};
use plc_text::NoMemory;
use routine_tables::{Parameter, Recipient};
use st_tree::{Argument, Note, Place};
use st_types::{Elem, StType};
use stack_code::Op;

/// What is called, with which parameters, on a value of which type and at a place of which type; and in the locals the block, what is free
/// behind it, and what is free behind the rooms of large outputs.
#[derive(Clone, Copy)]
pub struct CallPlan<'p> {
    pub callee: Callee<'p>,
    pub parameters: &'p [Parameter],
    pub receiver: &'p StType,
    pub whole: &'p StType,
    pub block: u32,
    pub rooms: u32,
    pub free: u32,
}

/// Where a large result comes to, and its type.
#[derive(Clone, Copy)]
pub struct ResultPlan<'p> {
    pub free: u32,
    pub kind: &'p StType,
}

/// So many bytes further on.
pub fn further(free: u32, n: u32) -> Result<u32, NoMemory>
    ensures { IfOk result (λ m. m ≡ free + n) }
{
    match free.checked_add(n) {
        Some(m) => Ok(m),
        None => Err(NoMemory),
    }
}

/// How many bytes a value of a type takes behind the locals while it is kept there.
pub fn room_of(c: &Context<'_>, kind: &StType) -> u32
    ensures { result ≡ sizes.room_of (plan_in c.now).size_of kind.now }
{
    if is_large(kind) {
        return size_of(kind, c.sizes);
    }
    0
}

/// Whether what is called is a conversion.
pub fn is_conversion(callee: Callee<'_>) -> bool
    ensures { result ≡ is_conversion (callee_seen callee.entry) }
{
    match callee {
        Callee::Conversion => true,
        Callee::Function(_) => false,
        Callee::Method(_, _) => false,
        Callee::Body(_) => false,
    }
}

fn keeps_own(callee: Callee<'_>) -> bool
    ensures { result ≡ keeps_own (callee_seen callee.entry) }
{
    match callee {
        Callee::Conversion => false,
        Callee::Function(_) => false,
        Callee::Method(_, _) => false,
        Callee::Body(_) => true,
    }
}

/// Whether the body of a base is called, by SUPER().
pub fn is_base_body(callee: Callee<'_>) -> bool
    ensures { result ≡ is_base_body (callee_seen callee.entry) }
{
    match callee {
        Callee::Body(search) => match search {
            Search::ByInstance => false,
            Search::FromClass(_) => true,
        },
        Callee::Conversion => false,
        Callee::Function(_) => false,
        Callee::Method(_, _) => false,
    }
}

/// How many bytes into a block a parameter stands: eight for each, and 24 before them.
pub fn parameter_place(i: u32) -> Result<u32, NoMemory>
    ensures { IfOk result (λ m. m ≡ sizes.of_parameter i) }
{
    let Some(bytes) = i.checked_mul(8) else {
        return Err(NoMemory);
    };
    further(24, bytes)
}

fn block_size(parameters: &[Parameter]) -> Result<u32, NoMemory>
    ensures { IfOk result (λ m. m ≡ sizes.block_size (length (parameters_of parameters.now))) }
{
    match u32::try_from(parameters.len()) {
        Ok(n) => parameter_place(n),
        Err(_) => Err(NoMemory),
    }
}

/// Where a parameter stands in a block.
pub fn place_in(block: u32, i: u32) -> Result<u32, NoMemory>
    ensures { IfOk result (λ m. m ≡ block + sizes.of_parameter i) }
{
    let at = parameter_place(i)?;
    further(block, at)
}

// ---- arguments

#[tactic(auto, using(st_tree::specs::Expression::expression_views))]
fn room_behind(c: &Context<'_>, free: u32, argument: &Argument<Note>) -> Result<u32, NoMemory>
    ensures { IfOk result (λ m. m ≡ steps.room_behind (plan_in c.now) free (argument_of argument.now)) }
{
    match argument {
        Argument::Output(_, _, _, place) => {
            let kind = last_kind(&root_note(&place.root).kind, place.selectors.as_slice());
            further(free, room_of(c, kind))
        }
        Argument::Positional(_) => Ok(free),
        Argument::Input(_, _, _) => Ok(free),
    }
}

/// What is free behind the rooms of large outputs.
fn behind_outputs(c: &Context<'_>, free: u32, arguments: &[Argument<Note>]) -> Result<u32, NoMemory>
    ensures { IfOk result (λ m. m ≡ behind_outputs (plan_in c.now) free (arguments_of arguments.now)) }
{
    let mut at = free;
    for argument in arguments {
        at = room_behind(c, at, argument)?;
    }
    Ok(at)
}

/// What is known of the call of a place with arguments, whose block lies at an offset of the locals.
#[tactic(auto, using(st_tree::specs::Expression::expression_views))]
pub fn call_of<'p>(
    place: &'p Place<Note>,
    arguments: &[Argument<Note>],
    c: &Context<'p>,
    block: u32,
) -> Result<CallPlan<'p>, NoMemory>
    ensures { IfOk result (IsCallPlan (plan_in c.now) (place_of place.now).0 (place_of place.now).1 (arguments_of arguments.now) block) }
{
    let selectors = place.selectors.as_slice();
    let kind = &root_note(&place.root).kind;
    let callee = callee_of(&place.root, selectors);
    let receiver = receiver(kind, selectors);
    let whole = last_kind(kind, selectors);
    let parameters = called_parameters(c, callee, receiver, whole);
    let size = block_size(parameters)?;
    let rooms = further(block, size)?;
    let free = behind_outputs(c, rooms, arguments)?;
    Ok(CallPlan {
        callee,
        parameters,
        receiver,
        whole,
        block,
        rooms,
        free,
    })
}

/// The number of the next parameter that is no output.
fn next_number(i: u32, left: &[Parameter]) -> Result<u32, NoMemory>
    ensures { IfOk result (λ n. n ≡ promise.next_number i (parameters_of left.now)) }
{
    let mut number = i;
    let mut rest = left;
    'parameters: while let Some((parameter, behind)) = rest.split_first() {
        if !is_output(parameter.sort) {
            return Ok(number);
        }
        number = further(number, 1)?;
        rest = behind;
    }
    Ok(number)
}

/// The arguments so far: the number of the first parameter that is left, those that are left, and what is free.
#[derive(Clone, Copy)]
pub struct Cursor<'p> {
    pub number: u32,
    pub left: &'p [Parameter],
    pub free: u32,
}

/// The number of the parameter to which an argument goes.
#[tactic(auto, using(st_tree::specs::Expression::expression_views))]
pub fn argument_number(
    i: u32,
    left: &[Parameter],
    argument: &Argument<Note>,
) -> Result<u32, NoMemory>
    ensures { IfOk result (λ n. n ≡ steps.argument_number i (parameters_of left.now) (argument_of argument.now)) }
{
    match argument {
        Argument::Positional(_) => next_number(i, left),
        Argument::Input(a, _, _) => Ok(parameter_number(&a.target)),
        Argument::Output(a, _, _, _) => Ok(parameter_number(&a.target)),
    }
}

/// The number of the first parameter that is left behind an argument.
#[tactic(auto, using(st_tree::specs::Expression::expression_views))]
fn number_behind(i: u32, left: &[Parameter], argument: &Argument<Note>) -> Result<u32, NoMemory>
    ensures { IfOk result (λ n. n ≡ steps.number_behind i (parameters_of left.now) (argument_of argument.now)) }
{
    match argument {
        Argument::Positional(_) => {
            let n = next_number(i, left)?;
            further(n, 1)
        }
        Argument::Input(_, _, _) => Ok(i),
        Argument::Output(_, _, _, _) => Ok(i),
    }
}

#[tactic(auto, using(st_tree::specs::Expression::expression_views))]
fn left_behind<'p>(left: &'p [Parameter], argument: &Argument<Note>) -> &'p [Parameter]
    ensures { parameters_of result.now ≡ steps.left_behind (parameters_of left.now) (argument_of argument.now) }
{
    match argument {
        Argument::Positional(_) => behind_next(left),
        Argument::Input(_, _, _) => left,
        Argument::Output(_, _, _, _) => left,
    }
}

/// What a value that is given takes behind the block; a place takes nothing.
fn passed_room(c: &Context<'_>, parameter: Option<Parameter>, kind: &StType) -> u32
    ensures { result ≡ passed_room (plan_in c.now) (option_map parameter_of parameter) kind.now }
{
    match parameter {
        Some(parameter) => {
            if is_in_out(parameter.sort) {
                0
            } else {
                room_of(c, kind)
            }
        }
        None => 0,
    }
}

#[tactic(auto, using(st_tree::specs::Expression::expression_views))]
fn free_behind(
    c: &Context<'_>,
    free: u32,
    parameters: &[Parameter],
    left: &[Parameter],
    argument: &Argument<Note>,
) -> Result<u32, NoMemory>
    ensures { IfOk result (λ n. n ≡ steps.free_behind (plan_in c.now) free (parameters_of parameters.now) (parameters_of left.now) (argument_of argument.now)) }
{
    match argument {
        Argument::Positional(value) => {
            let kind = &expression_note(value).kind;
            further(free, passed_room(c, next_parameter(left), kind))
        }
        Argument::Input(a, _, value) => {
            let kind = &expression_note(value).kind;
            further(free, passed_room(c, parameter_named(parameters, a), kind))
        }
        Argument::Output(_, _, _, _) => Ok(free),
    }
}

/// The arguments behind one more.
pub fn behind_argument<'p>(
    c: &Context<'_>,
    cursor: Cursor<'p>,
    parameters: &[Parameter],
    argument: &Argument<Note>,
) -> Result<Cursor<'p>, NoMemory>
    ensures { IfOk result (IsBehind (plan_in c.now) (parameters_of parameters.now) (argument_of argument.now) cursor.entry) }
{
    let number = number_behind(cursor.number, cursor.left, argument)?;
    let left = left_behind(cursor.left, argument);
    let free = free_behind(c, cursor.free, parameters, cursor.left, argument)?;
    Ok(Cursor { number, left, free })
}

// ---- the mask

/// The number with one bit.
pub fn bit(i: u32) -> Result<u64, NoMemory>
    ensures { IfOk result (λ n. n ≡ bit i) }
{
    let mut n = 1u64;
    let mut k = 0u32;
    'places: while k < i {
        let Some(twice) = n.checked_mul(2) else {
            return Err(NoMemory);
        };
        n = twice;
        k += 1;
    }
    Ok(n)
}

/// The sum of numbers with one bit, and one more.
fn with_bit(mask: u64, i: u32) -> Result<u64, NoMemory>
    ensures { IfOk result (λ n. n ≡ mask + bit i) }
{
    let one = bit(i)?;
    match mask.checked_add(one) {
        Some(n) => Ok(n),
        None => Err(NoMemory),
    }
}

fn with_same_bit(mask: u64, i: u32, parameter: Parameter) -> Result<u64, NoMemory>
    ensures { IfOk result (λ n. n ≡ mask + (if words.is_in_out parameter.sort then bit i else 0)) }
{
    if is_in_out(parameter.sort) {
        return with_bit(mask, i);
    }
    Ok(mask)
}

/// The bits of in-outs.
fn same_bits(parameters: &[Parameter]) -> Result<u64, NoMemory>
    ensures { IfOk result (λ n. n ≡ same_bits 0 (parameters_of parameters.now)) }
{
    let mut mask = 0u64;
    let mut i = 0u32;
    let mut left = parameters;
    'parameters: while let Some((parameter, behind)) = left.split_first() {
        mask = with_same_bit(mask, i, *parameter)?;
        i = further(i, 1)?;
        left = behind;
    }
    Ok(mask)
}

/// The bits of what is given.
fn given_bits(parameters: &[Parameter], arguments: &[Argument<Note>]) -> Result<u64, NoMemory>
    ensures { IfOk result (λ n. n ≡ given_bits (parameters_of parameters.now) 0 (parameters_of parameters.now) (arguments_of arguments.now)) }
{
    let mut mask = 0u64;
    let mut i = 0u32;
    let mut left = parameters;
    for argument in arguments {
        let number = argument_number(i, left, argument)?;
        mask = with_bit(mask, number)?;
        i = number_behind(i, left, argument)?;
        left = left_behind(left, argument);
    }
    Ok(mask)
}

/// Which parameters are given, and whether there is a result.
fn mask_of(
    call: &CallPlan<'_>,
    has_result: bool,
    arguments: &[Argument<Note>],
) -> Result<u64, NoMemory>
    ensures { IfOk result (λ n. n ≡ mask_of (callee_seen call.now.callee) (parameters_of call.now.parameters.now) has_result (arguments_of arguments.now)) }
{
    if is_base_body(call.callee) {
        return same_bits(call.parameters);
    }
    let mask = given_bits(call.parameters, arguments)?;
    if has_result {
        return with_bit(mask, 63);
    }
    Ok(mask)
}

// ---- cells

/// Keeps an address on top at an offset of the locals.
pub fn emit_kept(cells: &mut Vec<Cell>, at: u32, line: u32) -> Result<(), NoMemory>
    ensures { OnOk result (cells.new.items ≡ cells.old.items ++ does (op.Local at) line ∷ does op.StoreRef line ∷ []) }
{
    does(cells, Op::Local(at), line)?;
    does(cells, Op::StoreRef, line)?;
    Ok(())
}

/// Keeps the argument on top in the block.
pub fn emit_give(cells: &mut Vec<Cell>, at: u32, kind: &StType, line: u32) -> Result<(), NoMemory>
    ensures { OnOk result (cells.new.items ≡ cells.old.items ++ give_code line at kind.now) }
{
    let keep = if is_held(kind) {
        Op::StoreRef
    } else {
        Op::Store(Elem::Ulint)
    };
    does(cells, Op::Local(at), line)?;
    does(cells, keep, line)
}

/// Says in the block where a large value comes to.
fn emit_large(
    cells: &mut Vec<Cell>,
    at: u32,
    free: u32,
    kind: &StType,
    line: u32,
) -> Result<(), NoMemory>
    ensures { OnOk result (cells.new.items ≡ cells.old.items ++ large_code line at free kind.now) }
{
    if is_large(kind) {
        does(cells, Op::Local(free), line)?;
        emit_kept(cells, at, line)?;
    }
    Ok(())
}

/// A word from the block.
pub fn emit_taken(cells: &mut Vec<Cell>, at: u32, kind: &StType, line: u32) -> Result<(), NoMemory>
    ensures { OnOk result (cells.new.items ≡ cells.old.items ++ taken_code line at kind.now) }
{
    let load = if is_held(kind) {
        Op::LoadRef
    } else {
        Op::Load(number_kind(kind))
    };
    does(cells, Op::Local(at), line)?;
    does(cells, load, line)
}

/// Keeps the instance where outputs are read from it.
pub fn emit_own(
    cells: &mut Vec<Cell>,
    callee: Callee<'_>,
    block: u32,
    line: u32,
) -> Result<(), NoMemory>
    ensures { OnOk result (cells.new.items ≡ cells.old.items ++ own_code line (callee_seen callee.entry) (block + sizes.of_own)) }
{
    if keeps_own(callee) {
        let at = further(block, 16)?;
        does(cells, Op::Dup, line)?;
        emit_kept(cells, at, line)?;
    }
    Ok(())
}

/// Keeps in the block which parameters are given.
fn emit_mask(cells: &mut Vec<Cell>, block: u32, mask: u64, line: u32) -> Result<(), NoMemory>
    ensures { OnOk result (cells.new.items ≡ cells.old.items ++ mask_code line (block + sizes.of_mask) mask) }
{
    let at = further(block, 8)?;
    does(cells, Op::Push(i128::from(mask)), line)?;
    does(cells, Op::Local(at), line)?;
    does(cells, Op::Store(Elem::Ulint), line)
}

#[tactic(auto, using(st_tree::specs::Expression::expression_views))]
fn emit_room(
    cells: &mut Vec<Cell>,
    block: u32,
    free: u32,
    argument: &Argument<Note>,
    line: u32,
) -> Result<(), NoMemory>
    ensures { OnOk result (cells.new.items ≡ cells.old.items ++ steps.room_code line block free (argument_of argument.now)) }
{
    match argument {
        Argument::Output(a, _, _, place) => {
            let kind = last_kind(&root_note(&place.root).kind, place.selectors.as_slice());
            let at = place_in(block, parameter_number(&a.target))?;
            emit_large(cells, at, free, kind, line)
        }
        Argument::Positional(_) => Ok(()),
        Argument::Input(_, _, _) => Ok(()),
    }
}

/// Says in the block where large outputs come to.
fn emit_rooms(
    cells: &mut Vec<Cell>,
    c: &Context<'_>,
    call: &CallPlan<'_>,
    arguments: &[Argument<Note>],
    line: u32,
) -> Result<(), NoMemory>
    ensures { OnOk result (cells.new.items ≡ cells.old.items ++ output_rooms (plan_in c.now) line call.now.block call.now.rooms (arguments_of arguments.now)) }
{
    let mut free = call.rooms;
    for argument in arguments {
        emit_room(cells, call.block, free, argument, line)?;
        free = room_behind(c, free, argument)?;
    }
    Ok(())
}

/// Says in the block where a large result comes to.
fn emit_result(
    cells: &mut Vec<Cell>,
    block: u32,
    to: Option<ResultPlan<'_>>,
    line: u32,
) -> Result<(), NoMemory>
    ensures { OnOk result (cells.new.items ≡ cells.old.items ++ result_code line block to.entry) }
{
    match to {
        Some(plan) => emit_large(cells, block, plan.free, plan.kind, line),
        None => Ok(()),
    }
}

fn emit_jump_in(
    cells: &mut Vec<Cell>,
    c: &Context<'_>,
    call: &CallPlan<'_>,
    line: u32,
) -> Result<(), NoMemory>
    ensures { OnOk result (cells.new.items ≡ cells.old.items ++ does (op.Local call.now.block) line ∷ does op.Tick line ∷ does (call_op (plan_in c.now) (callee_seen call.now.callee) call.now.receiver.now call.now.whole.now) line ∷ []) }
{
    does(cells, Op::Local(call.block), line)?;
    does(cells, Op::Tick, line)?;
    does(
        cells,
        call_op(c, call.callee, call.receiver, call.whole),
        line,
    )
}

/// What stands between the arguments and the outputs of a call.
pub fn emit_entry(
    cells: &mut Vec<Cell>,
    c: &Context<'_>,
    call: &CallPlan<'_>,
    to: Option<ResultPlan<'_>>,
    arguments: &[Argument<Note>],
    line: u32,
) -> Result<(), NoMemory>
    ensures { OnOk result (cells.new.items ≡ cells.old.items ++ entry_code (plan_in c.now) line call.now to.entry (arguments_of arguments.now) []) }
{
    emit_rooms(cells, c, call, arguments, line)?;
    emit_result(cells, call.block, to, line)?;
    let mask = mask_of(call, to.is_some(), arguments)?;
    emit_mask(cells, call.block, mask, line)?;
    emit_jump_in(cells, c, call, line)
}

fn emit_same_one(
    cells: &mut Vec<Cell>,
    c: &Context<'_>,
    block: u32,
    i: u32,
    parameter: Parameter,
    line: u32,
) -> Result<(), NoMemory>
    ensures { OnOk result (cells.new.items ≡ cells.old.items ++ one_same_code (plan_in c.now) line block i (parameter_of parameter)) }
{
    if is_in_out(parameter.sort) {
        let at = place_in(block, i)?;
        emit_local(cells, c.locals, number_to(parameter.to), line)?;
        emit_kept(cells, at, line)?;
    }
    Ok(())
}

/// The in-outs of the body that runs, for those of its base.
pub fn emit_same(
    cells: &mut Vec<Cell>,
    c: &Context<'_>,
    block: u32,
    parameters: &[Parameter],
    line: u32,
) -> Result<(), NoMemory>
    ensures { OnOk result (cells.new.items ≡ cells.old.items ++ same_code (plan_in c.now) line block 0 (parameters_of parameters.now)) }
{
    let mut i = 0u32;
    let mut left = parameters;
    'parameters: while let Some((parameter, behind)) = left.split_first() {
        emit_same_one(cells, c, block, i, *parameter, line)?;
        i = further(i, 1)?;
        left = behind;
    }
    Ok(())
}

fn emit_member(
    cells: &mut Vec<Cell>,
    c: &Context<'_>,
    call: &CallPlan<'_>,
    k: u32,
    kind: &StType,
    line: u32,
) -> Result<(), NoMemory>
    ensures { OnOk result (cells.new.items ≡ cells.old.items ++ member_code (plan_in c.now) line (call.now.block + sizes.of_own) call.now.free k kind.now call.now.whole.now) }
{
    let own = further(call.block, 16)?;
    does(cells, Op::Local(own), line)?;
    does(cells, Op::LoadRef, line)?;
    does(cells, Op::Offset(field_of(call.whole, c.sizes, k)), line)?;
    let stands = kind_of(call.whole, c.sizes, k);
    emit_widened(cells, c, kind, stands, call.free, line)
}

/// An output: of a routine in the block, of a block in its instance.
pub fn emit_output_value(
    cells: &mut Vec<Cell>,
    c: &Context<'_>,
    call: &CallPlan<'_>,
    a: &Note,
    kind: &StType,
    line: u32,
) -> Result<(), NoMemory>
    ensures { OnOk result (cells.new.items ≡ cells.old.items ++ output_code (plan_in c.now) line (words.parameter_named (parameters_of call.now.parameters.now) a.now) (call.now.block + sizes.of_parameter (words.parameter_number a.now.target)) (call.now.block + sizes.of_own) call.now.free kind.now call.now.whole.now) }
{
    match parameter_named(call.parameters, a) {
        Some(parameter) => match parameter.to {
            Recipient::Local(_) => {
                let at = place_in(call.block, parameter_number(&a.target))?;
                emit_taken(cells, at, kind, line)
            }
            Recipient::Variable(k) => emit_member(cells, c, call, k, kind, line),
        },
        None => Ok(()),
    }
}
