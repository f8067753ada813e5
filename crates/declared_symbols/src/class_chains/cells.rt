//! Lists of classes that share what they have in common.

ghost use Rattle.std.specs.Prelude.{◌≡◌, ◌∷◌, ℕ, List, Some, length, IfOk};
ghost use Rattle.declared_symbols.specs.class_chains.Cells.{Lists};
ghost use Rattle.declared_symbols.specs.class_chains.Private.Grows.{Grows};

use plc_text::NoMemory;

/// A class, and the number of the cell of the class behind it, which stands before this one.
#[derive(Clone, Copy, Debug, PartialEq, Eq)]
pub struct Cell {
    pub class: u32,
    pub behind: Option<u32>,
}

fn count_of(cells: &[Cell]) -> Result<u32, NoMemory>
    ensures { IfOk result (λ count. count ≡ length cells.now) }
{
    match u32::try_from(cells.len()) {
        Ok(count) => Ok(count),
        Err(_) => Err(NoMemory),
    }
}

/// Adds a cell; its number.
pub fn push_cell(cells: &mut Vec<Cell>, class: u32, behind: Option<u32>) -> Result<u32, NoMemory>
    ensures grows { IfOk result (λ i. Grows cells.old.items cells.new.items) }
    ensures lists { IfOk result (λ i. (xs : List ℕ) → Lists cells.old.items behind xs → Lists cells.new.items (Some i) (class ∷ xs)) }
{
    let number = count_of(cells)?;
    cells.push(Cell { class, behind })?;
    Ok(number)
}

/// Adds cells for a list; the number of its first.
pub fn push_all(cells: &mut Vec<Cell>, classes: &[u32]) -> Result<Option<u32>, NoMemory>
    ensures grows { IfOk result (λ o. Grows cells.old.items cells.new.items) }
    ensures lists { IfOk result (λ o. Lists cells.new.items o classes.now) }
{
    let mut first = None;
    let mut left = classes;
    'classes: while let Some((class, before)) = left.split_last() {
        let number = push_cell(cells, *class, first)?;
        first = Some(number);
        left = before;
    }
    Ok(first)
}
