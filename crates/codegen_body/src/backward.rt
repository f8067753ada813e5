//! Cells that are kept from the last to the first.

ghost use Rattle.std.specs.Prelude.{◌≡◌, ◌≤◌, ◌++◌, IfOk, drop, reverse, take, vec_len};

use code_cells::Cell;
use plc_text::NoMemory;

/// The number, where it has 32 bits.
pub fn narrow(n: usize) -> Result<u32, NoMemory>
    ensures { IfOk result (λ x. x ≡ n) }
{
    match u32::try_from(n) {
        Ok(x) => Ok(x),
        Err(_) => Err(NoMemory),
    }
}

/// The cells from a place on are turned round.
pub fn turn(cells: &mut Vec<Cell>, from: usize)
    requires { from ≤ vec_len cells.old }
    ensures { cells.new.items ≡ take from cells.old.items ++ reverse (drop from cells.old.items) }
{
    cells[from..].reverse();
}
