//! What operators and literals give (IEC 61131-3:2013, 6.3.2 and table 71).

ghost use Rattle.std.specs.Prelude.{◌≡◌, pos, int_lt, int_le, IfSome};
ghost use Rattle.st_values.specs.Value.{number};
ghost use Rattle.st_meaning.specs.Operation as words;
ghost use Rattle.plc_num.specs.Arithmetic as numbers;
ghost use Rattle.plc_num.specs.Bits as bits;
ghost use Rattle.value_trees.specs.Value.{value_of};
ghost use Rattle.run_state.specs.State.{Shows, state_of};
ghost use Rattle.run_steps.specs.Private.Operations.{or_second};

use crate::values::{elem_of, is_true, number_in, same_value, truth};
use plc_num::{
    complement, conjunction, difference, disjunction, exclusive_disjunction, product, quotient,
    remainder, sum,
};
use plc_text::FaultKind;
use run_state::{RunState, Stop, fault};
use st_tree::{Literal, Operator, number_of};
use st_types::{Elem, StType};
use value_trees::Value;

/// Whether the left operand alone decides.
pub fn is_decided(operator: Operator, x: &Value) -> bool
    ensures { result ≡ words.is_decided operator (value_of x.now) }
{
    match operator {
        Operator::AndThen => !is_true(x),
        Operator::OrElse => is_true(x),
        _ => false,
    }
}

/// What stands behind a type and `#`; none where it has more digits than any type.
pub fn literal_value(literal: &Literal) -> Option<i128>
    ensures { IfSome result (λ z. z ≡ words.literal_value literal.now) }
{
    match literal {
        Literal::Int(digits) => Some(i128::from(number_of(digits.as_str())?)),
        Literal::Negative(digits) => Some(-i128::from(number_of(digits.as_str())?)),
        Literal::True => Some(1),
        Literal::False => Some(0),
    }
}

/// NOT, in the type of the operand.
#[tactic(auto, using(value_trees::specs::Value::value_views))]
pub fn complemented(kind: &StType, v: &Value) -> Value
    ensures { value_of result ≡ number (bits.complement (words.elem_of kind.now) (words.number_in (value_of v.now))) }
{
    Value::Number(complement(elem_of(kind), number_in(v)))
}

/// The number with the other sign, wrapped.
#[tactic(auto, using(value_trees::specs::Value::value_views))]
pub fn negated(kind: &StType, v: &Value) -> Value
    ensures { value_of result ≡ number (numbers.difference (words.elem_of kind.now) (pos 0) (words.number_in (value_of v.now))) }
{
    Value::Number(difference(elem_of(kind), 0, number_in(v)))
}

/// A quotient, or the fault of a divisor that is zero.
#[tactic(auto, using(value_trees::specs::Value::value_views))]
fn divide(m: &RunState, e: Elem, a: i128, b: i128, line: u32) -> Result<Value, Stop>
    ensures { Shows value_of result (words.divided numbers.quotient e a b line (state_of m.now)) (state_of m.now) }
{
    let _ = m;
    if b == 0 {
        return Err(fault(FaultKind::Divide, line));
    }
    Ok(Value::Number(quotient(e, a, b)))
}

/// A remainder, or the fault of a divisor that is zero.
#[tactic(auto, using(value_trees::specs::Value::value_views))]
fn modulo(m: &RunState, e: Elem, a: i128, b: i128, line: u32) -> Result<Value, Stop>
    ensures { Shows value_of result (words.divided numbers.remainder e a b line (state_of m.now)) (state_of m.now) }
{
    let _ = m;
    if b == 0 {
        return Err(fault(FaultKind::Divide, line));
    }
    Ok(Value::Number(remainder(e, a, b)))
}

/// The sum of two numbers.
#[tactic(auto, using(value_trees::specs::Value::value_views))]
fn added(e: Elem, x: &Value, y: &Value) -> Value
    ensures { value_of result ≡ number (numbers.sum e (words.number_in (value_of x.now)) (words.number_in (value_of y.now))) }
{
    Value::Number(sum(e, number_in(x), number_in(y)))
}

/// The difference of two numbers.
#[tactic(auto, using(value_trees::specs::Value::value_views))]
fn lessened(e: Elem, x: &Value, y: &Value) -> Value
    ensures { value_of result ≡ number (numbers.difference e (words.number_in (value_of x.now)) (words.number_in (value_of y.now))) }
{
    Value::Number(difference(e, number_in(x), number_in(y)))
}

/// The product of two numbers.
#[tactic(auto, using(value_trees::specs::Value::value_views))]
fn multiplied(e: Elem, x: &Value, y: &Value) -> Value
    ensures { value_of result ≡ number (numbers.product e (words.number_in (value_of x.now)) (words.number_in (value_of y.now))) }
{
    Value::Number(product(e, number_in(x), number_in(y)))
}

/// The bits that both have.
#[tactic(auto, using(value_trees::specs::Value::value_views))]
fn both(e: Elem, x: &Value, y: &Value) -> Value
    ensures { value_of result ≡ number (bits.conjunction e (words.number_in (value_of x.now)) (words.number_in (value_of y.now))) }
{
    Value::Number(conjunction(e, number_in(x), number_in(y)))
}

/// The bits that one has, or both.
#[tactic(auto, using(value_trees::specs::Value::value_views))]
fn either(e: Elem, x: &Value, y: &Value) -> Value
    ensures { value_of result ≡ number (bits.disjunction e (words.number_in (value_of x.now)) (words.number_in (value_of y.now))) }
{
    Value::Number(disjunction(e, number_in(x), number_in(y)))
}

/// The bits that one has, but not both.
#[tactic(auto, using(value_trees::specs::Value::value_views))]
fn unlike(e: Elem, x: &Value, y: &Value) -> Value
    ensures { value_of result ≡ number (bits.exclusive_disjunction e (words.number_in (value_of x.now)) (words.number_in (value_of y.now))) }
{
    Value::Number(exclusive_disjunction(e, number_in(x), number_in(y)))
}

/// Whether the first number is less than the second.
fn is_less(x: &Value, y: &Value) -> bool
    ensures { result ≡ int_lt (words.number_in (value_of x.now)) (words.number_in (value_of y.now)) }
{
    number_in(x) < number_in(y)
}

/// Whether the first number is at most the second.
fn is_at_most(x: &Value, y: &Value) -> bool
    ensures { result ≡ int_le (words.number_in (value_of x.now)) (words.number_in (value_of y.now)) }
{
    number_in(x) <= number_in(y)
}

/// What an operator gives for its two operands, in the elementary type of the result; none where that is the second operand as it is.
fn combined(
    m: &RunState,
    operator: Operator,
    e: Elem,
    x: &Value,
    y: &Value,
    line: u32,
) -> Result<Option<Value>, Stop>
    ensures { Shows (or_second (value_of y.now)) result (words.operation operator e (value_of x.now) (value_of y.now) line (state_of m.now)) (state_of m.now) }
{
    match operator {
        Operator::Plus => Ok(Some(added(e, x, y))),
        Operator::Minus => Ok(Some(lessened(e, x, y))),
        Operator::Times => Ok(Some(multiplied(e, x, y))),
        Operator::Divide => Ok(Some(divide(m, e, number_in(x), number_in(y), line)?)),
        Operator::Modulo => Ok(Some(modulo(m, e, number_in(x), number_in(y), line)?)),
        Operator::And => Ok(Some(both(e, x, y))),
        Operator::Or => Ok(Some(either(e, x, y))),
        Operator::Xor => Ok(Some(unlike(e, x, y))),
        Operator::AndThen => Ok(None),
        Operator::OrElse => Ok(None),
        Operator::Equal => Ok(Some(truth(same_value(x, y)))),
        Operator::Differs => Ok(Some(truth(!same_value(x, y)))),
        Operator::Less => Ok(Some(truth(is_less(x, y)))),
        Operator::Greater => Ok(Some(truth(is_less(y, x)))),
        Operator::AtMost => Ok(Some(truth(is_at_most(x, y)))),
        Operator::AtLeast => Ok(Some(truth(is_at_most(y, x)))),
    }
}

/// What an operator gives for its two operands, in the elementary type of the result.
pub fn operate(
    m: &RunState,
    operator: Operator,
    e: Elem,
    x: &Value,
    y: Value,
    line: u32,
) -> Result<Value, Stop>
    ensures { Shows value_of result (words.operation operator e (value_of x.now) (value_of y) line (state_of m.now)) (state_of m.now) }
{
    match combined(m, operator, e, x, &y, line) {
        Ok(Some(v)) => Ok(v),
        Ok(None) => Ok(y),
        Err(stop) => Err(stop),
    }
}
