//! What operators give of constants, as at run time.

ghost use Rattle.std.specs.Prelude.{◌≡◌, ◌&&◌, false, int_lt, int_le, pos};
ghost use Rattle.std.specs.Ordering.{int_eq};
ghost use Rattle.plc_num.specs.Arithmetic as numbers;
ghost use Rattle.plc_num.specs.Bits as bits;
ghost use Rattle.plc_num.specs.Conversion as conversions;
ghost use Rattle.st_unit_rules.specs.declared_names.Constants as constants;
ghost use Rattle.constant_folding.specs.constant_values.Outcome.{outcome};
ghost use Rattle.constant_folding.specs.constant_values.Private.Operations as own;

use crate::constant_values::outcome::Outcome;
use plc_num::{
    complement, conjunction, convert, difference, disjunction, exclusive_disjunction, product,
    quotient, remainder, sum,
};
use st_tree::{Operator, Target};
use st_types::Elem;

fn is_zero(z: i128) -> bool
    ensures { result ≡ constants.is_zero z }
{
    z == 0
}

fn is_division(operator: Operator) -> bool
    ensures { result ≡ constants.is_division operator }
{
    matches!(operator, Operator::Divide | Operator::Modulo)
}

fn truth(holds: bool) -> i128
    ensures { result ≡ constants.truth holds }
{
    i128::from(holds)
}

fn is_equal(a: i128, b: i128) -> bool
    ensures { result ≡ int_eq a b }
{
    a == b
}

fn is_less(a: i128, b: i128) -> bool
    ensures { result ≡ int_lt a b }
{
    a < b
}

fn is_at_most(a: i128, b: i128) -> bool
    ensures { result ≡ int_le a b }
{
    a <= b
}

/// What an operator gives for two numbers, in this kind.
fn result_of(operator: Operator, e: Elem, a: i128, b: i128) -> i128
    requires { (constants.is_division operator && constants.is_zero b) ≡ false }
    ensures { result ≡ constants.result_of operator e a b }
{
    match operator {
        Operator::Plus => sum(e, a, b),
        Operator::Minus => difference(e, a, b),
        Operator::Times => product(e, a, b),
        Operator::Divide => quotient(e, a, b),
        Operator::Modulo => remainder(e, a, b),
        Operator::And => conjunction(e, a, b),
        Operator::Or => disjunction(e, a, b),
        Operator::Xor => exclusive_disjunction(e, a, b),
        Operator::AndThen => b,
        Operator::OrElse => b,
        Operator::Equal => truth(is_equal(a, b)),
        Operator::Differs => truth(!is_equal(a, b)),
        Operator::Less => truth(is_less(a, b)),
        Operator::Greater => truth(is_less(b, a)),
        Operator::AtMost => truth(is_at_most(a, b)),
        Operator::AtLeast => truth(is_at_most(b, a)),
    }
}

/// What two numbers give, or a division by zero at this line.
fn both_numbers(operator: Operator, e: Elem, line: u32, a: i128, b: i128) -> Outcome
    ensures { outcome result ≡ constants.both operator e line (constants.comes_to a) (constants.comes_to b) }
{
    if is_division(operator) && is_zero(b) {
        Outcome::DividesByZero(line)
    } else {
        Outcome::Number(result_of(operator, e, a, b))
    }
}

/// A number behind what cannot be told: still a zero divisor counts.
fn behind_untold(operator: Operator, e: Elem, line: u32, b: i128) -> Outcome
    ensures { outcome result ≡ constants.both operator e line constants.cannot_be_told (constants.comes_to b) }
{
    let _ = e;
    if is_division(operator) && is_zero(b) {
        Outcome::DividesByZero(line)
    } else {
        Outcome::Untold
    }
}

/// Both operands are evaluated, the left one first.
fn both(operator: Operator, e: Elem, line: u32, x: Outcome, y: Outcome) -> Outcome
    ensures { outcome result ≡ constants.both operator e line (outcome x) (outcome y) }
{
    match x {
        Outcome::DividesByZero(at) => Outcome::DividesByZero(at),
        Outcome::Number(a) => match y {
            Outcome::Number(b) => both_numbers(operator, e, line, a, b),
            Outcome::DividesByZero(at) => Outcome::DividesByZero(at),
            Outcome::Untold => Outcome::Untold,
        },
        Outcome::Untold => match y {
            Outcome::Number(b) => behind_untold(operator, e, line, b),
            Outcome::DividesByZero(at) => Outcome::DividesByZero(at),
            Outcome::Untold => Outcome::Untold,
        },
    }
}

/// The right operand is evaluated where the left one is true.
fn if_true(x: Outcome, y: Outcome) -> Outcome
    ensures { outcome result ≡ constants.if_true (outcome x) (outcome y) }
{
    match x {
        Outcome::Number(a) => { if is_zero(a) { x } else { y } }
        Outcome::DividesByZero(_) => x,
        Outcome::Untold => x,
    }
}

/// The right operand is evaluated where the left one is false.
fn if_false(x: Outcome, y: Outcome) -> Outcome
    ensures { outcome result ≡ constants.if_false (outcome x) (outcome y) }
{
    match x {
        Outcome::Number(a) => { if is_zero(a) { y } else { x } }
        Outcome::DividesByZero(_) => x,
        Outcome::Untold => x,
    }
}

/// For which truth of the left operand the right one is evaluated, if not for both.
fn evaluates_if(operator: Operator) -> Option<bool>
    ensures { result ≡ own.evaluates_if operator }
{
    match operator {
        Operator::AndThen => Some(true),
        Operator::OrElse => Some(false),
        Operator::Or
        | Operator::Xor
        | Operator::And
        | Operator::Equal
        | Operator::Differs
        | Operator::Less
        | Operator::Greater
        | Operator::AtMost
        | Operator::AtLeast
        | Operator::Plus
        | Operator::Minus
        | Operator::Times
        | Operator::Divide
        | Operator::Modulo => None,
    }
}

/// What an operator gives, in this kind; a zero divisor counts in the row at this line.
#[tactic(auto, using(crate::proofs::constant_values::OperationLaws::operated_by))]
pub fn operated(operator: Operator, e: Elem, line: u32, x: Outcome, y: Outcome) -> Outcome
    ensures { outcome result ≡ constants.operated operator e line (outcome x) (outcome y) }
{
    match evaluates_if(operator) {
        Some(true) => if_true(x, y),
        Some(false) => if_false(x, y),
        None => both(operator, e, line, x, y),
    }
}

/// NOT of a number of this kind.
pub fn complemented(e: Elem, x: Outcome) -> Outcome
    ensures { outcome result ≡ constants.outcome_map (bits.complement e) (outcome x) }
{
    match x {
        Outcome::Number(a) => Outcome::Number(complement(e, a)),
        Outcome::DividesByZero(_) => x,
        Outcome::Untold => x,
    }
}

/// `-` before a number of this kind.
pub fn negated(e: Elem, x: Outcome) -> Outcome
    ensures { outcome result ≡ constants.outcome_map (numbers.difference e (pos 0)) (outcome x) }
{
    match x {
        Outcome::Number(a) => Outcome::Number(difference(e, 0, a)),
        Outcome::DividesByZero(_) => x,
        Outcome::Untold => x,
    }
}

/// A number converted to this kind.
pub fn converted(e: Elem, x: Outcome) -> Outcome
    ensures { outcome result ≡ constants.outcome_map (conversions.converted e) (outcome x) }
{
    match x {
        Outcome::Number(a) => Outcome::Number(convert(e, a)),
        Outcome::DividesByZero(_) => x,
        Outcome::Untold => x,
    }
}

/// The value that a name means: that of a constant, or the number of an enumerator.
pub fn target_value(target: &Target) -> Outcome
    ensures { outcome result ≡ constants.target_value target.now }
{
    match target {
        Target::Constant(z) => Outcome::Number(*z),
        Target::Enumerator(k) => Outcome::Number(i128::from(*k)),
        Target::Nothing => Outcome::Untold,
        Target::Local(_) => Outcome::Untold,
        Target::Variable(_) => Outcome::Untold,
        Target::Field(_) => Outcome::Untold,
        Target::Region(_) => Outcome::Untold,
        Target::Function(_) => Outcome::Untold,
        Target::Method(_) => Outcome::Untold,
        Target::Conversion => Outcome::Untold,
        Target::Parameter(_) => Outcome::Untold,
    }
}
