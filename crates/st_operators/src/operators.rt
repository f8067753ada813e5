//! Operations: their types, and operands that they do not take.

ghost use Rattle.std.specs.Prelude.{◌≡◌};
ghost use Rattle.st_rules.specs.Faults as faults;
ghost use Rattle.st_rules.specs.Kinds as kinds;
ghost use Rattle.st_rules.specs.Expressions as expressions;

use crate::kinds::{gives_bool, takes_minus, takes_not};
use crate::types::{is_number_type, operand_kind, suits_operator};
use plc_text::Code;
use st_rules::when;
use st_tree::Operator;
use st_types::{Elem, StType};

/// The type of an operation, from those of its operands; nothing where it cannot be told.
#[tactic(auto, unfolding(st_rules::specs::Kinds::operation_type))]
pub fn operation_type(o: Operator, t: &Option<StType>, u: &Option<StType>) -> Option<StType>
    ensures { result ≡ kinds.operation_type o t.now u.now }
{
    if gives_bool(o) {
        return Some(StType::Elementary(Elem::Bool));
    }
    match (t, u) {
        (Some(t), Some(u)) => match operand_kind(o, t, u) {
            Some(e) => Some(StType::Elementary(e)),
            None => None,
        },
        _ => None,
    }
}

/// An operator that does not take its operands.
#[tactic(auto, unfolding(st_rules::specs::Expressions::operands_unsuited))]
pub fn operands_fault(
    line: u32,
    o: Operator,
    t: &Option<StType>,
    u: &Option<StType>,
) -> Option<(Code, u32)>
    ensures { result ≡ faults.least (expressions.operands_unsuited line o t.now u.now) }
{
    match (t, u) {
        (Some(t), Some(u)) => when(!suits_operator(o, t, u), Code::E07, line),
        _ => None,
    }
}

/// The type of NOT.
#[tactic(auto, unfolding(st_rules::specs::Kinds::unary_type))]
pub fn noted_type(t: &Option<StType>) -> Option<StType>
    ensures { result ≡ kinds.unary_type kinds.takes_not t.now }
{
    match t {
        Some(StType::Elementary(e)) => if takes_not(*e) {
            Some(StType::Elementary(*e))
        } else {
            None
        },
        _ => None,
    }
}

/// The type of a sign before what is no int.
#[tactic(auto, unfolding(st_rules::specs::Kinds::unary_type))]
pub fn negated_type(t: &Option<StType>) -> Option<StType>
    ensures { result ≡ kinds.unary_type kinds.takes_minus t.now }
{
    match t {
        Some(StType::Elementary(e)) => if takes_minus(*e) {
            Some(StType::Elementary(*e))
        } else {
            None
        },
        _ => None,
    }
}

/// NOT of what is neither BOOL nor a bit string.
#[tactic(auto, unfolding(st_rules::specs::Expressions::operand_unsuited))]
pub fn noted_fault(line: u32, t: &Option<StType>) -> Option<(Code, u32)>
    ensures { result ≡ faults.least (expressions.operand_unsuited line kinds.takes_not t.now) }
{
    match t {
        Some(StType::Elementary(e)) => when(!takes_not(*e), Code::E07, line),
        Some(_) => Some((Code::E07, line)),
        None => None,
    }
}

/// A sign before what is no signed integer.
#[tactic(auto, unfolding(st_rules::specs::Expressions::operand_unsuited))]
pub fn negated_fault(line: u32, t: &Option<StType>) -> Option<(Code, u32)>
    ensures { result ≡ faults.least (expressions.operand_unsuited line kinds.takes_minus t.now) }
{
    match t {
        Some(StType::Elementary(e)) => when(!takes_minus(*e), Code::E07, line),
        Some(_) => Some((Code::E07, line)),
        None => None,
    }
}

/// An index that is no integer and no bit string.
#[tactic(auto, unfolding(st_rules::specs::Expressions::index_unsuited))]
pub fn index_fault(line: u32, t: &Option<StType>) -> Option<(Code, u32)>
    ensures { result ≡ faults.least (expressions.index_unsuited line t.now) }
{
    match t {
        Some(t) => when(!is_number_type(t), Code::E07, line),
        None => None,
    }
}
