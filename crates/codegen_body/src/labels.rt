//! Labels of CASE (IEC 61131-3:2013, 7.3.3.3.3).

ghost use Rattle.std.specs.Prelude.{◌≡◌, ◌∷◌, ◌++◌, OnOk, reverse};
ghost use Rattle.stack_code.specs.declared.op.Op.TheVariants as op;
ghost use Rattle.code_cells.specs.declared.cell.Cell.TheVariants.{Does as does, SkipsAt0 as skips_at_0};
ghost use Rattle.code_rules.specs.Bodies.{label_code, labels_code};

use crate::backward::narrow;
use code_cells::Cell;
use codegen_parts::{does, push};
use plc_text::NoMemory;
use run_steps::end_value;
use st_tree::{Label, Note};
use stack_code::Op;

/// A comparison with the number on top, which stays; past so many cells where it does not hold.
fn emit_compared(
    cells: &mut Vec<Cell>,
    operator: Op,
    value: i128,
    past: u32,
    line: u32,
) -> Result<(), NoMemory>
    ensures { OnOk result (reverse cells.new.items ≡ does op.Dup line ∷ does (op.Push value) line ∷ does operator line ∷ skips_at_0 past line ∷ reverse cells.old.items) }
{
    push(cells, Cell::SkipsAt0(past, line))?;
    does(cells, operator, line)?;
    does(cells, Op::Push(value), line)?;
    does(cells, Op::Dup, line)
}

/// A label behind which so many cells of labels stand.
fn emit_label(
    label: &Label<Note>,
    left: usize,
    cells: &mut Vec<Cell>,
    line: u32,
) -> Result<(), NoMemory>
    ensures { OnOk result (reverse cells.new.items ≡ label_code line label.now left ++ reverse cells.old.items) }
{
    let Some(more) = left.checked_add(1) else {
        return Err(NoMemory);
    };
    let far = narrow(more)?;
    let first = end_value(&label.first);
    push(cells, Cell::Skips(far, line))?;
    match &label.last {
        None => emit_compared(cells, Op::Eq, first, 1, line),
        Some(last) => {
            emit_compared(cells, Op::Le, end_value(last), 1, line)?;
            emit_compared(cells, Op::Ge, first, 5, line)
        }
    }
}

/// Labels, of which each goes past the rest where it holds.
pub fn emit_labels(labels: &[Label<Note>], cells: &mut Vec<Cell>, line: u32) -> Result<(), NoMemory>
    ensures { OnOk result (reverse cells.new.items ≡ labels_code line labels.now ++ reverse cells.old.items) }
{
    let end = cells.len();
    let mut i = labels.len();
    'labels: while i > 0 {
        i -= 1;
        let left = cells.len() - end;
        emit_label(&labels[i], left, cells, line)?;
    }
    Ok(())
}
