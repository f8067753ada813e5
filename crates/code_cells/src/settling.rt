//! Cells that are kept from the last to the first become instructions with their lines.

ghost use Rattle.std.specs.Prelude.{◌≡◌, ◌+◌, IfOk, map, reverse};
ghost use Rattle.code_cells.specs.Cell.{settled, settled_from};

use crate::cell::Cell;
use plc_text::{Items, NoMemory};
use stack_code::Op;
use std::alloc::Global;

/// An instruction with its line.
#[derive(Clone, Copy)]
struct Placed {
    op: Op,
    line: u32,
}

/// The cell at a place.
fn at_place(pc: u32, cell: Cell) -> Result<Placed, NoMemory>
    ensures op { IfOk result (λ x. x.op ≡ (settled pc cell).0) }
    ensures line { IfOk result (λ x. x.line ≡ (settled pc cell).1) }
{
    match cell {
        Cell::Does(op, line) => Ok(Placed { op, line }),
        Cell::Skips(n, line) => Ok(Placed {
            op: Op::Jump(past(pc, n)?),
            line,
        }),
        Cell::SkipsAt0(n, line) => Ok(Placed {
            op: Op::JumpF(past(pc, n)?),
            line,
        }),
        Cell::Returns(n, line) => Ok(Placed {
            op: Op::Jump(pc.saturating_sub(n)),
            line,
        }),
        Cell::ReturnsAt0(n, line) => Ok(Placed {
            op: Op::JumpF(pc.saturating_sub(n)),
            line,
        }),
    }
}

/// The place past so many cells behind one.
fn past(pc: u32, n: u32) -> Result<u32, NoMemory>
    ensures { IfOk result (λ to. to ≡ pc + 1 + n) }
{
    let Some(next) = pc.checked_add(1) else {
        return Err(NoMemory);
    };
    match next.checked_add(n) {
        Some(to) => Ok(to),
        None => Err(NoMemory),
    }
}

/// Instructions and lines.
#[derive(Drop)]
pub struct Instructions {
    pub ops: Items<Op>,
    pub lines: Items<u32>,
}

/// The instructions of code, in one pass.
pub fn settle(alloc: Global, cells: Vec<Cell>) -> Result<Instructions, NoMemory>
    ensures ops { IfOk result (λ r. r.ops ≡ map (λ x. x.0) (settled_from 0 (reverse cells.items))) }
    ensures lines { IfOk result (λ r. r.lines ≡ map (λ x. x.1) (settled_from 0 (reverse cells.items))) }
{
    let mut left = cells;
    let mut ops = Items::new(alloc);
    let mut lines = Items::new(alloc);
    let mut pc = 0u32;
    'cells: while let Some(cell) = left.pop() {
        let one = at_place(pc, cell)?;
        ops.push(one.op)?;
        lines.push(one.line)?;
        let Some(next) = pc.checked_add(1) else {
            return Err(NoMemory);
        };
        pc = next;
    }
    Ok(Instructions { ops, lines })
}
