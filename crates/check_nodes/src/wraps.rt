//! Parentheses, NOT and signs around an expression that is checked.

ghost use Rattle.std.specs.Prelude.{IfOk};
ghost use Rattle.check_nodes.specs.Wraps.{Encloses, Denies, Negates};

use crate::found::{Checked, noted};
use plc_text::NoMemory;
use st_operators::{negated_fault, negated_type, noted_fault, noted_type};
use st_rules::earlier;
use st_tree::Expr;
use st_types::Boxed;
use std::alloc::Global;

/// In parentheses.
#[tactic(auto, using(crate::proofs::Views::paren_view))]
pub fn enclosed(alloc: Global, line: u32, inner: Checked) -> Result<Checked, NoMemory>
    ensures { IfOk result (λ c. Encloses c line inner) }
{
    let note = noted(alloc, line, &inner.told)?;
    let (told, least, tree) = inner.into_parts();
    let tree = Boxed::new(alloc, tree)?;
    Ok(Checked {
        told,
        least,
        tree: Expr::Paren(note, tree),
    })
}

/// Behind NOT; its own line is that of the operand's first token.
#[tactic(auto, using(crate::proofs::Views::not_view))]
pub fn denied(
    alloc: Global,
    line: u32,
    operand_line: u32,
    operand: Checked,
) -> Result<Checked, NoMemory>
    ensures { IfOk result (λ c. Denies c line operand_line operand) }
{
    let whole = noted_type(&operand.told);
    let own = noted_fault(operand_line, &operand.told);
    let note = noted(alloc, line, &whole)?;
    let least = earlier(operand.least, own);
    let tree = Boxed::new(alloc, operand.into_tree())?;
    Ok(Checked {
        told: whole,
        least,
        tree: Expr::Not(note, tree),
    })
}

/// Behind a sign that belongs to no int.
#[tactic(auto, using(crate::proofs::Views::negate_view))]
pub fn negated(
    alloc: Global,
    line: u32,
    operand_line: u32,
    operand: Checked,
) -> Result<Checked, NoMemory>
    ensures { IfOk result (λ c. Negates c line operand_line operand) }
{
    let whole = negated_type(&operand.told);
    let own = negated_fault(operand_line, &operand.told);
    let note = noted(alloc, line, &whole)?;
    let least = earlier(operand.least, own);
    let tree = Boxed::new(alloc, operand.into_tree())?;
    Ok(Checked {
        told: whole,
        least,
        tree: Expr::Negate(note, tree),
    })
}
