//! Values of literals.

ghost use Rattle.std.specs.Prelude.{◌≡◌, ◌&&◌, pos, neg_ℤ, int_le};
ghost use Rattle.st_tree.specs.Number as number;
ghost use Rattle.st_tree.specs.Duration as durations;
ghost use Rattle.st_rules.specs.Literals as literals;
ghost use Rattle.st_unit_rules.specs.declared_names.Constants as constants;
ghost use Rattle.constant_folding.specs.constant_values.Outcome.{outcome};

use crate::constant_values::outcome::Outcome;
use st_tree::{Literal, milliseconds, number_of};

/// Whether the number has 64 bits at most.
fn has_64_bits(z: i128) -> bool
    ensures { result ≡ (int_le (neg_ℤ (pos 9223372036854775808)) z && int_le z (pos 18446744073709551615)) }
{
    -9_223_372_036_854_775_808 <= z && z <= 18_446_744_073_709_551_615
}

/// A literal of this number; past 64 bits it stands for none.
fn literal(z: i128) -> Outcome
    ensures { outcome result ≡ constants.literal_outcome z }
{
    if has_64_bits(z) {
        Outcome::Number(z)
    } else {
        Outcome::Untold
    }
}

/// The value of an int.
pub fn int_value(digits: &str) -> Outcome
    ensures { outcome result ≡ constants.literal_outcome (pos (number.number_of digits.now)) }
{
    match number_of(digits) {
        Some(n) => literal(i128::from(n)),
        None => Outcome::Untold,
    }
}

/// The value of an int with `-` before it.
pub fn negative_value(digits: &str) -> Outcome
    ensures { outcome result ≡ constants.literal_outcome (neg_ℤ (pos (number.number_of digits.now))) }
{
    match number_of(digits) {
        Some(n) => literal(-i128::from(n)),
        None => Outcome::Untold,
    }
}

/// The value of a literal behind its type.
pub fn typed_value(literal: &Literal) -> Outcome
    ensures { outcome result ≡ constants.literal_outcome (literals.literal_number literal.now) }
{
    match literal {
        Literal::Int(digits) => int_value(digits.as_str()),
        Literal::Negative(digits) => negative_value(digits.as_str()),
        Literal::True => Outcome::Number(1),
        Literal::False => Outcome::Number(0),
    }
}

/// The milliseconds of a duration, where they take 32 bits at most.
pub fn duration_value(text: &str) -> Outcome
    ensures { outcome result ≡ constants.duration_outcome (durations.milliseconds text.now) }
{
    match milliseconds(text) {
        Some(n) => Outcome::Number(i128::from(n)),
        None => Outcome::Untold,
    }
}
