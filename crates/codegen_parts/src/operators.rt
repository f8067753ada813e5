//! Instructions of operators.

ghost use Rattle.std.specs.Prelude.{◌≡◌, ℕ, [], ◌∷◌, ◌++◌, if◌then◌else◌, OnOk};
ghost use Rattle.st_types.specs.declared.elem.Elem.TheVariants as elem;
ghost use Rattle.stack_code.specs.declared.op.Op.TheVariants as op;
ghost use Rattle.code_rules.specs.Code.{inverted, is_held, number_kind, operator_code};
ghost use Rattle.code_rules.specs.Places.{is_large};
ghost use Rattle.code_cells.specs.declared.cell.Cell.TheVariants.{Does as does};

use crate::pushes::does;
use code_cells::Cell;
use plc_text::NoMemory;
use run_steps::elem_of;
use st_tree::Operator;
use st_types::{Elem, StType};
use stack_code::Op;

/// The kind of the number that a value of a type is.
pub fn number_kind(kind: &StType) -> Elem
    ensures { result ≡ number_kind kind.now }
{
    match kind {
        StType::Elementary(e) => *e,
        _ => Elem::Udint,
    }
}

/// Whether an address or a reference stands for a value.
pub fn is_held(kind: &StType) -> bool
    ensures { result ≡ is_held kind.now }
{
    match kind {
        StType::Elementary(_) => false,
        StType::Enumeration(_) => false,
        _ => true,
    }
}

/// By the type of the left operand and that of the result.
fn operator_op(operator: Operator, left: &StType, kind: &StType) -> Op
    ensures { result ≡ operator_code operator left.now kind.now }
{
    match operator {
        Operator::Plus => Op::Add(elem_of(kind)),
        Operator::Minus => Op::Sub(elem_of(kind)),
        Operator::Times => Op::Mul(elem_of(kind)),
        Operator::Divide => Op::Div(elem_of(kind)),
        Operator::Modulo => Op::Mod(elem_of(kind)),
        Operator::And => Op::And(elem_of(kind)),
        Operator::Or => Op::Or(elem_of(kind)),
        Operator::Xor => Op::Xor(elem_of(kind)),
        Operator::Equal => { if is_held(left) { Op::Same } else { Op::Eq } }
        Operator::Differs => { if is_held(left) { Op::Same } else { Op::Ne } }
        Operator::Less => Op::Lt,
        Operator::Greater => Op::Gt,
        Operator::AtMost => Op::Le,
        Operator::AtLeast => Op::Ge,
        Operator::AndThen => Op::Drop,
        Operator::OrElse => Op::Drop,
    }
}

/// Whether what was found the same is to differ.
fn is_inverted(operator: Operator, left: &StType) -> bool
    ensures { (line : ℕ) → inverted line operator left.now ≡ (if result then does (op.Not elem.Bool) line ∷ [] else []) }
{
    match operator {
        Operator::Differs => is_held(left),
        _ => false,
    }
}

/// The instruction of an operator whose operands are there.
pub fn emit_operator(
    cells: &mut Vec<Cell>,
    operator: Operator,
    left: &StType,
    kind: &StType,
    line: u32,
) -> Result<(), NoMemory>
    ensures { OnOk result (cells.new.items ≡ cells.old.items ++ does (operator_code operator left.now kind.now) line ∷ inverted line operator left.now) }
{
    does(cells, operator_op(operator, left, kind), line)?;
    if is_inverted(operator, left) {
        does(cells, Op::Not(Elem::Bool), line)?;
    }
    Ok(())
}

/// Whether no word holds a value.
pub fn is_large(kind: &StType) -> bool
    ensures { result ≡ is_large kind.now }
{
    match kind {
        StType::Elementary(_) => false,
        StType::Enumeration(_) => false,
        StType::Reference(_) => false,
        StType::Interface(_) => false,
        StType::Instance(_) => false,
        _ => true,
    }
}
