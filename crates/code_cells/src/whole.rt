//! Instructions, lines and kinds of a routine.

ghost use Rattle.std.specs.Prelude.{◌≡◌, ◌≤◌, ℕ, IfOk, List, Some, length, map, reverse, slice_get};
ghost use Rattle.stack_code.specs.declared.op.Kind.{Kind as AKind};
ghost use Rattle.code_cells.specs.Cell.{settled_from};
ghost use Rattle.code_cells.specs.Found.{all_found, ended};

use crate::cell::Cell;
use crate::kinds::find_all;
use crate::settling::{Instructions, settle};
use plc_text::{Items, NoMemory};
use stack_code::{Kind, Op};
use std::alloc::Global;

/// Lists from the last cell to the first, from the first to the last.
fn turned(alloc: Global, kinds: Vec<Items<Kind>>) -> Result<Items<Option<Items<Kind>>>, NoMemory>
    ensures { IfOk result (λ r. r ≡ map Some (reverse kinds.items)) }
{
    let mut left = kinds;
    let mut out = Items::new(alloc);
    'kinds: while let Some(one) = left.pop() {
        out.push(Some(one))?;
    }
    Ok(out)
}

fn length_of(kinds: &Option<Items<Kind>>) -> usize
    ensures { (ks : List AKind) → kinds.now ≡ Some ks → length ks ≤ result }
{
    match kinds {
        Some(ks) => ks.len(),
        None => 0,
    }
}

/// The greatest length of a list.
fn room(kinds: &[Option<Items<Kind>>]) -> usize
    ensures { (n : ℕ) (ks : List AKind) → slice_get kinds.now n ≡ Some (Some ks) → length ks ≤ result }
{
    let mut most = 0usize;
    for ks in kinds {
        most = most.max(length_of(ks));
    }
    most
}

/// What a routine's cells become.
#[derive(Drop)]
pub struct Emitted {
    pub ops: Items<Op>,
    pub lines: Items<u32>,
    pub kinds: Items<Option<Items<Kind>>>,
    pub room: u32,
}

/// Instructions, lines and kinds of cells that are kept from the last to the first, in time linear in them and in their kinds.
pub fn emit_whole(alloc: Global, cells: Vec<Cell>) -> Result<Emitted, NoMemory>
    ensures ops { IfOk result (λ r. r.ops ≡ map (λ x. x.0) (settled_from 0 (reverse cells.items))) }
    ensures lines { IfOk result (λ r. r.lines ≡ map (λ x. x.1) (settled_from 0 (reverse cells.items))) }
    ensures kinds { IfOk result (λ r. r.kinds ≡ map (λ ks. Some (reverse ks)) (all_found (reverse cells.items) ended)) }
    ensures room { IfOk result (λ r. (n : ℕ) (ks : List AKind) → slice_get (all_found (reverse cells.items) ended) n ≡ Some ks → length ks ≤ r.room) }
{
    let found = find_all(alloc, cells.as_slice())?;
    let kinds = turned(alloc, found)?;
    let Ok(room) = u32::try_from(room(kinds.as_slice())) else {
        return Err(NoMemory);
    };
    let Instructions { ops, lines } = settle(alloc, cells)?;
    Ok(Emitted {
        ops,
        lines,
        kinds,
        room,
    })
}
