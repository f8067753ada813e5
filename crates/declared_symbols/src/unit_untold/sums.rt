//! How many variables and locals of bodies the bases of each class declare together.

ghost use Rattle.std.specs.Prelude.{◌≡◌, ◌+◌, List, ℕ, IfOk};
ghost use Rattle.st_tree.specs.declared.unit.Decl.{Decl as ADecl};
ghost use Rattle.declared_symbols.specs.unit_untold.Private.Counts as counts;
ghost use Rattle.declared_symbols.specs.unit_untold.Private.Counts.{AreTotals, AreSums};

use crate::class_chains::Cell;
use crate::unit_untold::counts::{Counts, nothing};
use plc_text::NoMemory;
use std::alloc::Global;

fn sum(a: u32, b: u32) -> Result<u32, NoMemory>
    ensures { IfOk result (λ n. n ≡ a + b) }
{
    match a.checked_add(b) {
        Some(sum) => Ok(sum),
        None => Err(NoMemory),
    }
}

fn both(a: Counts, b: Counts) -> Result<Counts, NoMemory>
    ensures { IfOk result (λ c. c ≡ counts.both a b) }
{
    let kept = sum(a.kept, b.kept)?;
    let body = sum(a.body, b.body)?;
    Ok(Counts { kept, body })
}

/// What the first has more than the second.
fn less(a: Counts, b: Counts) -> Counts
    ensures { result ≡ counts.less a b }
{
    Counts {
        kept: a.kept.saturating_sub(b.kept),
        body: a.body.saturating_sub(b.body),
    }
}

fn count_there(list: &[Counts], number: u32) -> Counts
    ensures { result ≡ counts.count_there list.now number }
{
    match list.get(number as usize) {
        Some(counts) => *counts,
        None => nothing(),
    }
}

fn count_behind(totals: &[Counts], cell: Option<u32>) -> Counts
    ensures { result ≡ counts.count_behind totals.now cell }
{
    match cell {
        Some(number) => count_there(totals, number),
        None => nothing(),
    }
}

/// What the classes from a cell on declare together.
fn count_at(own: &[Counts], totals: &[Counts], cell: &Cell) -> Result<Counts, NoMemory>
    ensures { IfOk result (λ c. c ≡ counts.count_at own.now totals.now cell.now) }
{
    let counts = both(
        count_there(own, cell.class),
        count_behind(totals, cell.behind),
    )?;
    Ok(counts)
}

/// What the classes from each cell on declare together.
pub fn totals_of(alloc: Global, own: &[Counts], cells: &[Cell]) -> Result<Vec<Counts>, NoMemory>
    ensures { IfOk result (λ totals. AreTotals own.now cells.now totals.items) }
{
    let mut totals: Vec<Counts> = Vec::new(alloc);
    for cell in cells {
        let total = count_at(own, &totals, cell)?;
        totals.push(total)?;
    }
    Ok(totals)
}

/// What the bases of a class declare together.
pub fn counts_above(
    own: &[Counts],
    totals: &[Counts],
    firsts: &[u32],
    class: u32,
) -> Result<Counts, NoMemory>
    ensures { IfOk result (λ c. (decls : List (ADecl ℕ)) → AreSums decls own.now totals.now firsts.now → (c.kept ≡ counts.kept_above decls class) × (c.body ≡ counts.body_above decls class)) }
{
    match firsts.get(class as usize) {
        Some(first) => Ok(less(count_there(totals, *first), count_there(own, class))),
        None => Err(NoMemory),
    }
}
