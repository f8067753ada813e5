//! FOR without its body (IEC 61131-3:2013, 7.3.3.4.2), from the first cell to the last. The end and the step are kept behind the locals.

ghost use Rattle.std.specs.Prelude.{◌≡◌, ◌+◌, [], ◌∷◌, ◌++◌, length, pos, OnOk};
ghost use Rattle.st_tree.specs.Expression.{expression_of};
ghost use Rattle.stack_code.specs.declared.op.Op.TheVariants as op;
ghost use Rattle.code_cells.specs.declared.cell.Cell.TheVariants.{Does as does, SkipsAt0 as skips_at_0};
ghost use Rattle.code_rules.specs.Code.{named_code};
ghost use Rattle.code_rules.specs.Bodies.{advance_code, step_code, step_kind, within_code};
ghost use Rattle.codegen_tables.specs.Context.{plan_in};
ghost use Rattle.codegen_body.specs.Counting.{compared_code, head_code, kept_code, kinds_of, raised_code, seen_expression, stored_code};

use body_uses::expression_note;
use code_cells::Cell;
use codegen_expr::emit_value;
use codegen_parts::{does, emit_named, further, number_kind, push};
use codegen_tables::Context;
use plc_text::NoMemory;
use run_steps::elem_of;
use st_tree::{Expr, Note, Target};
use st_types::{Elem, StType};
use stack_code::Op;

/// The kinds of the variable, of the end and of the step.
#[derive(Clone, Copy)]
pub struct CountKinds {
    pub variable: Elem,
    pub end: Elem,
    pub step: Elem,
}

fn step_kind(kind: &StType, by: &Option<Expr<Note>>) -> Elem
    ensures { result ≡ step_kind kind.now (seen_expression by.now) }
{
    match by {
        Some(e) => number_kind(&expression_note(e).kind),
        None => elem_of(kind),
    }
}

/// The kinds in a FOR.
pub fn count_kinds(kind: &StType, to: &Expr<Note>, by: &Option<Expr<Note>>) -> CountKinds
    ensures { result ≡ kinds_of kind.now (expression_of to.now) (seen_expression by.now) }
{
    CountKinds {
        variable: elem_of(kind),
        end: number_kind(&expression_note(to).kind),
        step: step_kind(kind, by),
    }
}

/// How many cells the code of a variable's name has.
fn named_length(c: &Context<'_>, target: &Target, line: u32) -> u32
    ensures { result ≡ length (named_code (plan_in c.now) line target.now) }
{
    let _ = line;
    match target {
        Target::Local(n) => match c.locals.get(*n as usize) {
            Some(place) => { if place.in_out { 3 } else { 1 } }
            None => 0,
        },
        Target::Region(_) => 1,
        Target::Variable(_) => 1,
        Target::Method(_) => 1,
        _ => 0,
    }
}

/// Keeps the number on top at an offset of the locals.
fn emit_kept_number(cells: &mut Vec<Cell>, at: u32, kind: Elem, line: u32) -> Result<(), NoMemory>
    ensures { OnOk result (cells.new.items ≡ cells.old.items ++ kept_code line at kind) }
{
    does(cells, Op::Local(at), line)?;
    does(cells, Op::Store(kind), line)
}

/// Keeps the number on top in the variable.
fn emit_stored(
    cells: &mut Vec<Cell>,
    c: &Context<'_>,
    target: &Target,
    kind: Elem,
    line: u32,
) -> Result<(), NoMemory>
    ensures { OnOk result (cells.new.items ≡ cells.old.items ++ stored_code line kind (named_code (plan_in c.now) line target.now)) }
{
    emit_named(cells, c, target, line)?;
    does(cells, Op::Store(kind), line)
}

// ---- the test

/// Whether the variable has not passed the end, by one comparison.
fn emit_compared(
    cells: &mut Vec<Cell>,
    c: &Context<'_>,
    target: &Target,
    kinds: CountKinds,
    free: u32,
    operator: Op,
    line: u32,
) -> Result<(), NoMemory>
    ensures { OnOk result (cells.new.items ≡ cells.old.items ++ compared_code line free kinds.variable kinds.end (named_code (plan_in c.now) line target.now) operator) }
{
    emit_named(cells, c, target, line)?;
    does(cells, Op::Load(kinds.variable), line)?;
    does(cells, Op::Local(free), line)?;
    does(cells, Op::Load(kinds.end), line)?;
    does(cells, operator, line)
}

/// Whether the step is below 0; past so many cells where it is not.
fn emit_sign(
    cells: &mut Vec<Cell>,
    at: u32,
    kind: Elem,
    past: u32,
    line: u32,
) -> Result<(), NoMemory>
    ensures { OnOk result (cells.new.items ≡ cells.old.items ++ does (op.Local at) line ∷ does (op.Load kind) line ∷ does (op.Push (pos 0)) line ∷ does op.Lt line ∷ skips_at_0 past line ∷ []) }
{
    does(cells, Op::Local(at), line)?;
    does(cells, Op::Load(kind), line)?;
    does(cells, Op::Push(0), line)?;
    does(cells, Op::Lt, line)?;
    push(cells, Cell::SkipsAt0(past, line))
}

/// Whether the variable has not passed the end.
pub fn emit_within(
    cells: &mut Vec<Cell>,
    c: &Context<'_>,
    target: &Target,
    kinds: CountKinds,
    free: u32,
    line: u32,
) -> Result<(), NoMemory>
    ensures { OnOk result (cells.new.items ≡ cells.old.items ++ within_code line free kinds.variable kinds.end kinds.step (named_code (plan_in c.now) line target.now)) }
{
    let step = further(free, 8)?;
    let past = further(named_length(c, target, line), 4)?;
    let beyond = further(past, 1)?;
    emit_sign(cells, step, kinds.step, beyond, line)?;
    emit_compared(cells, c, target, kinds, free, Op::Ge, line)?;
    push(cells, Cell::Skips(past, line))?;
    emit_compared(cells, c, target, kinds, free, Op::Le, line)
}

// ---- the step

/// The variable and the step added up, with whether the sum was wrapped; past so many cells where it was not.
fn emit_raised(
    cells: &mut Vec<Cell>,
    c: &Context<'_>,
    target: &Target,
    kinds: CountKinds,
    step: u32,
    line: u32,
) -> Result<(), NoMemory>
    ensures { OnOk result (cells.new.items ≡ cells.old.items ++ raised_code line step kinds.variable kinds.step (named_code (plan_in c.now) line target.now)) }
{
    emit_named(cells, c, target, line)?;
    does(cells, Op::Load(kinds.variable), line)?;
    does(cells, Op::Local(step), line)?;
    does(cells, Op::Load(kinds.step), line)?;
    does(cells, Op::AddC(kinds.variable), line)
}

/// The step; where it wrapped, past the jump back.
pub fn emit_advance(
    cells: &mut Vec<Cell>,
    c: &Context<'_>,
    target: &Target,
    kinds: CountKinds,
    free: u32,
    line: u32,
) -> Result<(), NoMemory>
    ensures { OnOk result (cells.new.items ≡ cells.old.items ++ advance_code line free kinds.variable kinds.step (named_code (plan_in c.now) line target.now)) }
{
    let step = further(free, 8)?;
    let past = further(named_length(c, target, line), 2)?;
    emit_raised(cells, c, target, kinds, step, line)?;
    push(cells, Cell::SkipsAt0(past, line))?;
    emit_stored(cells, c, target, kinds.variable, line)?;
    push(cells, Cell::Skips(past, line))?;
    emit_stored(cells, c, target, kinds.variable, line)
}

// ---- the head

fn emit_step<'p>(
    by: &'p Option<Expr<Note>>,
    cells: &mut Vec<Cell>,
    c: &Context<'p>,
    free: u32,
    line: u32,
) -> Result<(), NoMemory>
    ensures { OnOk result (cells.new.items ≡ cells.old.items ++ step_code (plan_in c.now) line free (seen_expression by.now)) }
{
    match by {
        Some(e) => {
            emit_value(e, cells, c, free, line)?;
            does(cells, Op::NoZero, line)
        }
        None => does(cells, Op::Push(1), line),
    }
}

/// First value, end and step, of which the last two are kept and then the first.
pub fn emit_head<'p>(
    from: &'p Expr<Note>,
    to: &'p Expr<Note>,
    by: &'p Option<Expr<Note>>,
    target: &Target,
    kinds: CountKinds,
    cells: &mut Vec<Cell>,
    c: &Context<'p>,
    free: u32,
    line: u32,
) -> Result<(), NoMemory>
    ensures { OnOk result (cells.new.items ≡ cells.old.items ++ head_code (plan_in c.now) line free kinds (named_code (plan_in c.now) line target.now) (expression_of from.now) (expression_of to.now) (seen_expression by.now)) }
{
    let step = further(free, 8)?;
    emit_value(from, cells, c, free, line)?;
    emit_value(to, cells, c, free, line)?;
    emit_kept_number(cells, free, kinds.end, line)?;
    emit_step(by, cells, c, step, line)?;
    emit_kept_number(cells, step, kinds.step, line)?;
    emit_stored(cells, c, target, kinds.variable, line)
}
