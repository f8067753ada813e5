//! The numbers that ints stand for (IEC 61131-3:2013, 6.3.2).

ghost use Rattle.std.specs.Prelude.{◌≡◌, ◌<◌, ◌≤◌, ◌^◌};
ghost use Rattle.std.specs.Option.{SomeIff};
ghost use Rattle.st_tree.specs.Number as number;

use plc_text::{is_digit, opens};

/// The value of a digit; that of `A` is 10.
#[inline]
pub(crate) fn digit_value(digit: u8) -> u8
    ensures { result ≡ number.digit_value digit }
{
    if is_digit(digit) {
        digit - b'0'
    } else {
        digit.to_ascii_uppercase().saturating_sub(55)
    }
}

/// The number with one digit more, where it takes 64 bits; an underscore adds none.
#[inline]
fn with_digit(base: u64, value: u64, digit: u8) -> Option<u64>
    ensures { SomeIff result (number.with_digit base value digit < 2 ^ 64) (number.with_digit base value digit) }
{
    if digit == b'_' {
        Some(value)
    } else {
        value
            .checked_mul(base)?
            .checked_add(u64::from(digit_value(digit)))
    }
}

/// The number that digits of this base stand for, with underscores between them; nothing where it takes more than 64 bits.
pub(crate) fn digits_value(base: u64, digits: &[u8]) -> Option<u64>
    requires { 1 ≤ base }
    ensures { SomeIff result (number.digits_value base digits.now < 2 ^ 64) (number.digits_value base digits.now) }
{
    let mut value = 0;
    for digit in digits {
        value = with_digit(base, value, *digit)?;
    }
    Some(value)
}

/// The number that an int stands for, in decimal or behind `2#`, `8#` or `16#`; nothing where it takes more than 64 bits.
pub fn number_of(int: &str) -> Option<u64>
    ensures { SomeIff result (number.number_of int.now < 2 ^ 64) (number.number_of int.now) }
{
    let text = int.as_bytes();
    if opens(text, b"2#") {
        digits_value(2, &text[2..])
    } else if opens(text, b"8#") {
        digits_value(8, &text[2..])
    } else if opens(text, b"16#") {
        digits_value(16, &text[3..])
    } else {
        digits_value(10, text)
    }
}
