//! Values that are written out.

ghost use Rattle.std.specs.Prelude.{◌≡◌, [], ◌∷◌, ◌++◌, OnOk, pos};
ghost use Rattle.st_tree.specs.Duration as durations;
ghost use Rattle.st_tree.specs.Number as numbers;
ghost use Rattle.st_meaning.specs.Operation as words;
ghost use Rattle.st_values.specs.Initial as initial;
ghost use Rattle.plc_num.specs.Arithmetic as arithmetic;
ghost use Rattle.stack_code.specs.declared.op.Op.TheVariants as op;
ghost use Rattle.code_cells.specs.declared.cell.Cell.TheVariants.{Does as does};

use crate::pushes::does;
use code_cells::Cell;
use plc_num::difference;
use plc_text::{NoMemory, Text};
use run_steps::{constant, elem_of, literal_value};
use st_tree::{Literal, Target, milliseconds, number_of};
use st_types::StType;
use stack_code::Op;

/// A number; one of more than 64 bits is none.
pub fn emit_int(cells: &mut Vec<Cell>, digits: &Text, line: u32) -> Result<(), NoMemory>
    ensures { OnOk result (cells.new.items ≡ cells.old.items ++ does (op.Push (pos (numbers.number_of digits.now))) line ∷ []) }
{
    match number_of(digits.as_str()) {
        Some(n) => does(cells, Op::Push(i128::from(n)), line),
        None => Err(NoMemory),
    }
}

/// `-` and a number.
pub fn emit_negative(
    cells: &mut Vec<Cell>,
    kind: &StType,
    digits: &Text,
    line: u32,
) -> Result<(), NoMemory>
    ensures { OnOk result (cells.new.items ≡ cells.old.items ++ does (op.Push (arithmetic.difference (words.elem_of kind.now) (pos 0) (pos (numbers.number_of digits.now)))) line ∷ []) }
{
    match number_of(digits.as_str()) {
        Some(n) => does(
            cells,
            Op::Push(difference(elem_of(kind), 0, i128::from(n))),
            line,
        ),
        None => Err(NoMemory),
    }
}

/// A number behind its type.
pub fn emit_typed(cells: &mut Vec<Cell>, literal: &Literal, line: u32) -> Result<(), NoMemory>
    ensures { OnOk result (cells.new.items ≡ cells.old.items ++ does (op.Push (words.literal_value literal.now)) line ∷ []) }
{
    match literal_value(literal) {
        Some(z) => does(cells, Op::Push(z), line),
        None => Err(NoMemory),
    }
}

/// A duration in milliseconds.
pub fn emit_time(cells: &mut Vec<Cell>, text: &Text, line: u32) -> Result<(), NoMemory>
    ensures { OnOk result (cells.new.items ≡ cells.old.items ++ does (op.Push (pos (durations.milliseconds text.now))) line ∷ []) }
{
    match milliseconds(text.as_str()) {
        Some(n) => does(cells, Op::Push(i128::from(n)), line),
        None => Err(NoMemory),
    }
}

/// The number of a constant or an enumerator; 0 of anything else.
pub fn emit_constant(cells: &mut Vec<Cell>, target: &Target, line: u32) -> Result<(), NoMemory>
    ensures { OnOk result (cells.new.items ≡ cells.old.items ++ does (op.Push (initial.constant target.now)) line ∷ []) }
{
    does(cells, Op::Push(constant(target)), line)
}
