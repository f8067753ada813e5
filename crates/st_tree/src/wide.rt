//! The numbers of up to 128 bits that ints stand for: counts of values, which no kind of the language holds.

ghost use Rattle.std.specs.Prelude.{◌≡◌, ◌<◌, ◌≤◌, ◌^◌};
ghost use Rattle.std.specs.Option.{SomeIff};
ghost use Rattle.st_tree.specs.Number as number;

use crate::number::digit_value;
use plc_text::opens;

/// The number with one digit more, where it takes 128 bits; an underscore adds none.
fn with_digit(base: u128, value: u128, digit: u8) -> Option<u128>
    ensures { SomeIff result (number.with_digit base value digit < 2 ^ 128) (number.with_digit base value digit) }
{
    if digit == b'_' {
        Some(value)
    } else {
        value
            .checked_mul(base)?
            .checked_add(u128::from(digit_value(digit)))
    }
}

/// The number that digits of this base stand for, with underscores between them; nothing where it takes more than 128 bits.
fn digits_value(base: u128, digits: &[u8]) -> Option<u128>
    requires { 1 ≤ base }
    ensures { SomeIff result (number.digits_value base digits.now < 2 ^ 128) (number.digits_value base digits.now) }
{
    let mut value = 0;
    for digit in digits {
        value = with_digit(base, value, *digit)?;
    }
    Some(value)
}

/// The number that an int stands for, in decimal or behind `2#`, `8#` or `16#`; nothing where it takes more than 128 bits.
pub fn wide_number(int: &str) -> Option<u128>
    ensures { SomeIff result (number.number_of int.now < 2 ^ 128) (number.number_of int.now) }
{
    let text = int.as_bytes();
    if opens(text, b"2#") {
        digits_value(2, &text[2..])
    } else if opens(text, b"8#") {
        digits_value(8, &text[2..])
    } else if opens(text, b"16#") {
        digits_value(16, &text[3..])
    } else {
        digits_value(10, text)
    }
}
