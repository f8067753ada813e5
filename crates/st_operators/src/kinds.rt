//! Elementary kinds that operators take.

ghost use Rattle.std.specs.Prelude.{◌≡◌};
ghost use Rattle.st_rules.specs.Kinds as kinds;

use st_tree::Operator;
use st_types::{Elem, widen};

/// The kind that two operands take: the first that both reach.
pub fn common_kind(a: Elem, b: Elem) -> Option<Elem>
    ensures { result ≡ kinds.common_kind a b }
{
    widen(a, b)
}

pub fn is_bool(e: Elem) -> bool
    ensures { result ≡ kinds.is_bool e }
{
    matches!(e, Elem::Bool)
}

pub fn is_time(e: Elem) -> bool
    ensures { result ≡ kinds.is_time e }
{
    matches!(e, Elem::Time)
}

/// Integers and bit strings.
pub fn is_number(e: Elem) -> bool
    ensures { result ≡ kinds.is_number e }
{
    e.is_integer() || e.is_bit_string()
}

fn is_logical(e: Elem) -> bool
    ensures { result ≡ kinds.takes_not e }
{
    is_bool(e) || e.is_bit_string()
}

/// `+`, `-`, `*`, `/` and MOD.
pub fn is_arithmetic(o: Operator) -> bool
    ensures { result ≡ kinds.is_arithmetic o }
{
    matches!(
        o,
        Operator::Plus | Operator::Minus | Operator::Times | Operator::Divide | Operator::Modulo
    )
}

/// Comparisons, AND_THEN and OR_ELSE.
pub fn gives_bool(o: Operator) -> bool
    ensures { result ≡ kinds.gives_bool o }
{
    match o {
        Operator::AndThen
        | Operator::OrElse
        | Operator::Equal
        | Operator::Differs
        | Operator::Less
        | Operator::Greater
        | Operator::AtMost
        | Operator::AtLeast => true,
        _ => false,
    }
}

/// Whether an operator takes operands of the kind.
pub fn takes(o: Operator, e: Elem) -> bool
    ensures { result ≡ kinds.takes o e }
{
    match o {
        Operator::Or | Operator::Xor | Operator::And => is_logical(e),
        Operator::OrElse | Operator::AndThen => is_bool(e),
        Operator::Equal | Operator::Differs => true,
        Operator::Less | Operator::Greater | Operator::AtMost | Operator::AtLeast => {
            is_number(e) || is_time(e)
        }
        Operator::Plus | Operator::Minus => e.is_integer() || is_time(e),
        Operator::Times | Operator::Divide | Operator::Modulo => e.is_integer(),
    }
}

/// Whether NOT takes the kind.
pub fn takes_not(e: Elem) -> bool
    ensures { result ≡ kinds.takes_not e }
{
    is_logical(e)
}

/// Whether a sign takes the kind.
pub fn takes_minus(e: Elem) -> bool
    ensures { result ≡ kinds.takes_minus e }
{
    e.is_signed()
}
