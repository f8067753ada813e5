//! Literals: the types that they take, and whether they fit.

ghost use Rattle.std.specs.Prelude.{◌≡◌, ℕ, false, nat_le, pos, neg_ℤ, ◌++◌, MatchOption};
ghost use Rattle.st_types.specs.declared.elem.Elem.{Elem as Kind};
ghost use Rattle.st_tree.specs.Number as number;
ghost use Rattle.st_rules.specs.Faults as faults;
ghost use Rattle.st_rules.specs.Literals as literals;

use crate::kinds::{is_bool, is_number};
use crate::types::is_number_type;
use plc_text::Code;
use st_rules::{Asked, at, when};
use st_tree::{Literal, milliseconds, number_of};
use st_types::{Elem, StType, highest, lowest};

/// Whether the number is a value of the kind.
fn holds(e: Elem, v: i128) -> bool
    ensures { result ≡ literals.holds e v }
{
    lowest(e) <= v && v <= highest(e)
}

/// Whether an int is 0 or 1.
fn is_bit(digits: &str) -> bool
    ensures { result ≡ nat_le (number.number_of digits.now) 1 }
{
    match number_of(digits) {
        Some(n) => n <= 1,
        None => false,
    }
}

/// The type that an int takes; nothing where it cannot be told.
#[tactic(auto, unfolding(st_rules::specs::Literals::int_type))]
pub fn int_type(asked: &Asked, digits: &str) -> Option<StType>
    ensures { result ≡ literals.int_type asked.now digits.now }
{
    match asked {
        Asked::Anything => Some(StType::Elementary(Elem::Dint)),
        Asked::Wanted(t) => Some(int_taken(t, is_bit(digits))),
        Asked::Untold => None,
    }
}

fn int_taken(t: &StType, bit: bool) -> StType
    ensures { (n : ℕ) → bit ≡ nat_le n 1 → result ≡ literals.int_taken t.now n }
{
    match t {
        StType::Elementary(e) => {
            if is_number(*e) || is_bool(*e) && bit {
                StType::Elementary(*e)
            } else {
                StType::Elementary(Elem::Dint)
            }
        }
        _ => StType::Elementary(Elem::Dint),
    }
}

/// The type that an int with its sign takes; nothing where it cannot be told.
#[tactic(auto, unfolding(st_rules::specs::Literals::negative_type))]
pub fn negative_type(asked: &Asked) -> Option<StType>
    ensures { result ≡ literals.negative_type asked.now }
{
    match asked {
        Asked::Wanted(StType::Elementary(e)) => {
            if is_number(*e) {
                Some(StType::Elementary(*e))
            } else {
                Some(StType::Elementary(Elem::Dint))
            }
        }
        Asked::Anything | Asked::Wanted(_) => Some(StType::Elementary(Elem::Dint)),
        Asked::Untold => None,
    }
}

/// What a place of a type asks for.
#[tactic(auto, unfolding(st_rules::specs::Literals::asked_of))]
pub fn asked_of(t: Option<StType>) -> Asked
    ensures { result ≡ literals.asked_of t }
{
    match t {
        Some(t) => Asked::Wanted(t),
        None => Asked::Untold,
    }
}

/// What an untyped operation asks its operands for.
#[tactic(auto, unfolding(st_rules::specs::Literals::number_asked))]
pub fn number_asked(asked: &Asked) -> Asked
    ensures { result ≡ literals.number_asked asked.now }
{
    match asked {
        Asked::Wanted(StType::Elementary(e)) => {
            if is_number(*e) {
                Asked::Wanted(StType::Elementary(*e))
            } else {
                Asked::Anything
            }
        }
        Asked::Anything | Asked::Wanted(_) => Asked::Anything,
        Asked::Untold => Asked::Untold,
    }
}

/// The type that NULL takes.
#[tactic(auto, unfolding(st_rules::specs::Literals::null_type))]
pub fn null_type(asked: &Asked) -> StType
    ensures { result ≡ literals.null_type asked.now }
{
    match asked {
        Asked::Wanted(StType::Reference(c)) => StType::Reference(*c),
        Asked::Wanted(StType::Interface(i)) => StType::Interface(*i),
        _ => StType::Reference(0),
    }
}

fn fits_type(t: &StType, v: i128) -> bool
    ensures { result ≡ literals.fits_type t.now v }
{
    match t {
        StType::Elementary(e) => holds(*e, v),
        _ => true,
    }
}

fn number_fault(line: u32, v: i128, t: &Option<StType>) -> Option<(Code, u32)>
    ensures { result ≡ faults.least (literals.number_past_its_type line v t.now) }
{
    match t {
        Some(t) => when(!fits_type(t, v), Code::E13, line),
        None => None,
    }
}

/// An int that has more than 64 bits, or does not fit its type.
#[tactic(auto, using(crate::proofs::LiteralLaws::within_64_bits), unfolding(st_rules::specs::Literals::int_faults))]
pub fn int_fault(line: u32, digits: &str, t: &Option<StType>) -> Option<(Code, u32)>
    ensures { result ≡ faults.least (literals.int_faults line digits.now t.now) }
{
    match number_of(digits) {
        Some(n) => number_fault(line, i128::from(n), t),
        None => at(Code::E13, line),
    }
}

/// The number below zero.
fn negated(n: u64) -> i128
    ensures { result ≡ neg_ℤ (pos n) }
{
    -i128::from(n)
}

fn negative_fits(t: &StType, n: u64) -> bool
    ensures { result ≡ literals.fits_type t.now (neg_ℤ (pos n)) }
{
    fits_type(t, -i128::from(n))
}

fn negative_number_fault(line: u32, n: u64, t: &Option<StType>) -> Option<(Code, u32)>
    ensures { result ≡ faults.least (literals.number_past_its_type line (neg_ℤ (pos n)) t.now) }
{
    match t {
        Some(t) => when(!negative_fits(t, n), Code::E13, line),
        None => None,
    }
}

/// The same for an int with its sign.
#[tactic(auto, using(crate::proofs::LiteralLaws::within_64_bits), unfolding(st_rules::specs::Literals::negative_faults))]
pub fn negative_fault(line: u32, digits: &str, t: &Option<StType>) -> Option<(Code, u32)>
    ensures { result ≡ faults.least (literals.negative_faults line digits.now t.now) }
{
    match number_of(digits) {
        Some(n) => negative_number_fault(line, n, t),
        None => at(Code::E13, line),
    }
}

fn is_wrong_truth(e: Elem, literal: &Literal) -> bool
    ensures { result ≡ literals.is_wrong_truth e literal.now }
{
    match literal {
        Literal::Int(_) | Literal::Negative(_) => false,
        Literal::True | Literal::False => !is_bool(e),
    }
}

/// The number of a literal behind its type; nothing where it has more than 64 bits.
#[tactic(auto, using(crate::proofs::LiteralLaws::past_negative))]
pub fn literal_number(literal: &Literal) -> Option<i128>
    ensures { MatchOption result ((e : Kind) → literals.holds e (literals.literal_number literal.now) ≡ false) (λ v. v ≡ literals.literal_number literal.now) }
{
    match literal {
        Literal::Int(digits) => match number_of(digits.as_str()) {
            Some(n) => Some(i128::from(n)),
            None => None,
        },
        Literal::Negative(digits) => match number_of(digits.as_str()) {
            Some(n) => Some(negated(n)),
            None => None,
        },
        Literal::True => Some(1),
        Literal::False => Some(0),
    }
}

/// The type of a literal behind its type; nothing for a truth value of another kind than BOOL.
#[tactic(auto, unfolding(st_rules::specs::Literals::typed_literal_type))]
pub fn literal_type(e: Elem, literal: &Literal) -> Option<StType>
    ensures { result ≡ literals.typed_literal_type e literal.now }
{
    if is_wrong_truth(e, literal) {
        None
    } else {
        Some(StType::Elementary(e))
    }
}

fn literal_fits(e: Elem, literal: &Literal) -> bool
    ensures { result ≡ literals.holds e (literals.literal_number literal.now) }
{
    match literal_number(literal) {
        Some(v) => holds(e, v),
        None => false,
    }
}

/// A literal behind its type that is of another kind, or does not fit.
#[tactic(auto, unfolding(st_rules::specs::Literals::typed_literal_faults))]
pub fn literal_fault(line: u32, e: Elem, literal: &Literal) -> Option<(Code, u32)>
    ensures { result ≡ faults.least (literals.typed_literal_faults line e literal.now) }
{
    if is_wrong_truth(e, literal) {
        at(Code::E07, line)
    } else {
        when(!literal_fits(e, literal), Code::E13, line)
    }
}

/// A duration that has more than 32 bits.
#[tactic(auto, unfolding(st_rules::specs::Literals::time_past_32_bits))]
pub fn duration_fault(line: u32, text: &str) -> Option<(Code, u32)>
    ensures { result ≡ faults.least (literals.time_past_32_bits line text.now) }
{
    when(milliseconds(text).is_none(), Code::E13, line)
}
