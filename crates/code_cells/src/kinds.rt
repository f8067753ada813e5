//! The operand kinds that cells find, from the last cell to the first.

ghost use Rattle.std.specs.Prelude.{◌≡◌, [], IfOk, List, map, reverse};
ghost use Rattle.stack_code.specs.declared.op.Kind.{Kind as AKind};
ghost use Rattle.code_cells.specs.Found.{all_found, before, below, ended, found, kinds_or_none};
ghost use Rattle.code_cells.specs.Private.Changes.{changed, seen};

use crate::cell::Cell;
use plc_text::{Items, NoMemory};
use stack_code::{Kind, Op};
use std::alloc::Global;

/// What an instruction finds, by what the next one finds.
#[derive(Clone, Copy)]
enum Change {
    Same,
    Nothing,
    /// Without the top.
    Below,
    /// A number more.
    Number,
    AddressNumber,
    Addresses,
    AddressBelow,
    AddressesBelow,
}

fn change_of(op: &Op) -> Change
    ensures { (ks : List AKind) → before op.now ks ≡ changed result ks }
{
    match op {
        Op::Push(_) => Change::Below,
        Op::Null => Change::Below,
        Op::Drop => Change::Number,
        Op::Dup => Change::Below,
        Op::Local(_) => Change::Below,
        Op::This(_) => Change::Below,
        Op::Region(_, _) => Change::Below,
        Op::Offset(_) => Change::Same,
        Op::Index(_, _, _) => Change::Number,
        Op::Deref => Change::Same,
        Op::Load(_) => Change::AddressBelow,
        Op::Store(_) => Change::AddressNumber,
        Op::LoadRef => Change::Same,
        Op::StoreRef => Change::Addresses,
        Op::Copy(_) => Change::Addresses,
        Op::Add(_) => Change::Number,
        Op::Sub(_) => Change::Number,
        Op::Mul(_) => Change::Number,
        Op::Div(_) => Change::Number,
        Op::Mod(_) => Change::Number,
        Op::Neg(_) => Change::Same,
        Op::AddC(_) => Change::Same,
        Op::Eq => Change::Number,
        Op::Ne => Change::Number,
        Op::Lt => Change::Number,
        Op::Le => Change::Number,
        Op::Gt => Change::Number,
        Op::Ge => Change::Number,
        Op::Same => Change::AddressesBelow,
        Op::And(_) => Change::Number,
        Op::Or(_) => Change::Number,
        Op::Xor(_) => Change::Number,
        Op::Not(_) => Change::Same,
        Op::Conv(_, _) => Change::Same,
        Op::NoZero => Change::Same,
        Op::Jump(_) => Change::Same,
        Op::JumpF(_) => Change::Number,
        Op::Tick => Change::Same,
        Op::Call(_, _) => Change::Addresses,
        Op::CallM(_, _, _) => Change::Addresses,
        Op::CallI(_, _, _) => Change::Addresses,
        Op::Try(_) => Change::Same,
        Op::Now => Change::Below,
        Op::Ret(_) => Change::Nothing,
        Op::End => Change::Nothing,
    }
}

fn copy(alloc: Global, ks: &[Kind]) -> Result<Items<Kind>, NoMemory>
    ensures { IfOk result (λ r. r ≡ ks.now) }
{
    let mut out = Items::new(alloc);
    for k in ks {
        out.push(*k)?;
    }
    Ok(out)
}

/// All but the top.
#[tactic(auto, using(crate::proofs::ReverseLaws::reversed))]
fn lower(ks: &[Kind]) -> &[Kind]
    ensures { reverse result.now ≡ below (reverse ks.now) }
{
    match ks.split_last() {
        Some((_, rest)) => rest,
        None => ks,
    }
}

#[tactic(auto, using(crate::proofs::ReverseLaws::reversed))]
fn with_change(alloc: Global, change: Change, ks: &[Kind]) -> Result<Items<Kind>, NoMemory>
    ensures { IfOk result (λ r. reverse r ≡ changed change (reverse ks.now)) }
{
    match change {
        Change::Same => copy(alloc, ks),
        Change::Nothing => Ok(Items::new(alloc)),
        Change::Below => copy(alloc, lower(ks)),
        Change::Number => {
            let mut out = copy(alloc, ks)?;
            out.push(Kind::Num)?;
            Ok(out)
        }
        Change::AddressNumber => {
            let mut out = copy(alloc, ks)?;
            out.push(Kind::Num)?;
            out.push(Kind::Addr)?;
            Ok(out)
        }
        Change::Addresses => {
            let mut out = copy(alloc, ks)?;
            out.push(Kind::Addr)?;
            out.push(Kind::Addr)?;
            Ok(out)
        }
        Change::AddressBelow => {
            let mut out = copy(alloc, lower(ks))?;
            out.push(Kind::Addr)?;
            Ok(out)
        }
        Change::AddressesBelow => {
            let mut out = copy(alloc, lower(ks))?;
            out.push(Kind::Addr)?;
            out.push(Kind::Addr)?;
            Ok(out)
        }
    }
}

/// What is found so many cells behind, in lists of which the last is that of the next cell; nothing where there is no such cell.
fn look(behind: &[Items<Kind>], n: u32) -> &[Kind]
    ensures { reverse result.now ≡ kinds_or_none (seen behind.now n) }
{
    let n = n as usize;
    if n >= behind.len() {
        return &[];
    }
    behind[behind.len() - 1 - n].as_slice()
}

/// What a cell finds.
fn found(alloc: Global, cell: Cell, behind: &[Items<Kind>]) -> Result<Items<Kind>, NoMemory>
    ensures { IfOk result (λ r. reverse r ≡ found cell (seen behind.now)) }
{
    match cell {
        Cell::Does(op, _) => with_change(alloc, change_of(&op), look(behind, 0)),
        Cell::Skips(n, _) => copy(alloc, look(behind, n)),
        Cell::SkipsAt0(_, _) => with_change(alloc, Change::Number, look(behind, 0)),
        Cell::Returns(_, _) => copy(alloc, look(behind, 0)),
        Cell::ReturnsAt0(_, _) => with_change(alloc, Change::Number, look(behind, 0)),
    }
}

/// What all cells find, in one pass; cells and lists go from the last cell to the first.
pub fn find_all(alloc: Global, cells: &[Cell]) -> Result<Vec<Items<Kind>>, NoMemory>
    ensures { IfOk result (λ v. map reverse (reverse v.items) ≡ all_found (reverse cells.now) ended) }
{
    let mut kinds = Vec::new(alloc);
    for cell in cells {
        let one = found(alloc, *cell, kinds.as_slice())?;
        kinds.push(one)?;
    }
    Ok(kinds)
}
