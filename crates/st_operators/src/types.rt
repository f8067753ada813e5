//! Types as operands.

ghost use Rattle.std.specs.Prelude.{◌≡◌, MatchOption, Some, None};
ghost use Rattle.st_rules.specs.Kinds as kinds;

use crate::kinds::{common_kind, is_bool, is_number, takes};
use st_tree::Operator;
use st_types::{Elem, StType};

pub fn is_number_type(t: &StType) -> bool
    ensures { result ≡ kinds.is_elementary kinds.is_number t.now }
{
    match t {
        StType::Elementary(e) => is_number(*e),
        _ => false,
    }
}

pub fn is_bool_type(t: &StType) -> bool
    ensures { result ≡ kinds.is_elementary kinds.is_bool t.now }
{
    match t {
        StType::Elementary(e) => is_bool(*e),
        _ => false,
    }
}

/// A type of references or interface values.
pub fn is_reference(t: &StType) -> bool
    ensures { result ≡ kinds.is_reference t.now }
{
    match t {
        StType::Reference(_) | StType::Interface(_) => true,
        _ => false,
    }
}

fn same_enumeration(t: &StType, u: &StType) -> bool
    ensures { result ≡ kinds.same_enumeration t.now u.now }
{
    match (t, u) {
        (StType::Enumeration(n), StType::Enumeration(m)) => n == m,
        _ => false,
    }
}

/// An instance, or an array that holds instances.
#[cycle(holding)]
#[tactic(auto, using(st_rules::specs::Kinds::instance_views))]
pub fn holds_instances(t: &StType) -> bool
    ensures { result ≡ kinds.holds_instances t.now }
{
    match t {
        StType::Instance(_) => true,
        StType::Array(_, _, of) => holds_instances(of.get()),
        StType::Elementary(_) => false,
        StType::Enumeration(_) => false,
        StType::Structure(_) => false,
        StType::Reference(_) => false,
        StType::Interface(_) => false,
    }
}

/// The type of the elements, of an array.
pub fn element_type(t: &StType) -> Option<&StType>
    ensures { MatchOption result (kinds.element_type t.now ≡ None) (λ of. kinds.element_type t.now ≡ Some of.now) }
{
    match t {
        StType::Array(_, _, of) => Some(of.get()),
        _ => None,
    }
}

fn common_type(t: &StType, u: &StType) -> Option<Elem>
    ensures { result ≡ kinds.common_type t.now u.now }
{
    match (t, u) {
        (StType::Elementary(a), StType::Elementary(b)) => common_kind(*a, *b),
        _ => None,
    }
}

/// The kind in which an operator takes two operands.
pub fn operand_kind(o: Operator, t: &StType, u: &StType) -> Option<Elem>
    ensures { result ≡ kinds.operand_kind o t.now u.now }
{
    match common_type(t, u) {
        Some(e) => if takes(o, e) { Some(e) } else { None },
        None => None,
    }
}

fn compares_equal(o: Operator, t: &StType, u: &StType) -> bool
    ensures { result ≡ kinds.compares_equal o t.now u.now }
{
    match o {
        Operator::Equal | Operator::Differs => {
            same_enumeration(t, u) || is_reference(t) && is_reference(u)
        }
        _ => false,
    }
}

/// Whether an operator takes operands of these types together.
pub fn suits_operator(o: Operator, t: &StType, u: &StType) -> bool
    ensures { result ≡ kinds.suits_operator o t.now u.now }
{
    operand_kind(o, t, u).is_some() || compares_equal(o, t, u)
}
