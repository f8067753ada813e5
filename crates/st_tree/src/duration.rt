//! Durations (IEC 61131-3:2013, 6.3.4).

ghost use Rattle.std.specs.Prelude.{◌≡◌, ◌<◌, ◌≤◌, ◌^◌, length};
ghost use Rattle.std.specs.List.{prefix_len};
ghost use Rattle.std.specs.Option.{SomeIff};
ghost use Rattle.plc_text.specs.Words.{is_digit as is_digit_of};
ghost use Rattle.st_tree.specs.Duration as duration;

use crate::number::digits_value;
use plc_text::{is_digit, spells};

/// The unit of a part of a duration.
#[derive(Clone, Copy, Debug, PartialEq, Eq)]
pub enum TimeUnit {
    /// `D`
    Day,
    /// `H`
    Hour,
    /// `M`
    Minute,
    /// `S`
    Second,
    /// `MS`
    Millisecond,
}

impl TimeUnit {
    fn milliseconds(self) -> u64
        ensures { result ≡ duration.milliseconds_in self }
    {
        match self {
            TimeUnit::Day => 86_400_000,
            TimeUnit::Hour => 3_600_000,
            TimeUnit::Minute => 60_000,
            TimeUnit::Second => 1000,
            TimeUnit::Millisecond => 1,
        }
    }
}

/// The unit that the letters name.
fn unit_named(letters: &[u8]) -> TimeUnit
    ensures { result ≡ duration.unit_named letters.now }
{
    if spells(letters, b"D") {
        TimeUnit::Day
    } else if spells(letters, b"H") {
        TimeUnit::Hour
    } else if spells(letters, b"M") {
        TimeUnit::Minute
    } else if spells(letters, b"S") {
        TimeUnit::Second
    } else {
        TimeUnit::Millisecond
    }
}

fn is_unit_letter(byte: u8) -> bool
    ensures { result ≡ duration.is_unit_letter byte }
{
    byte.is_ascii_alphabetic()
}

/// How many digits stand at the front.
fn digits_len(text: &[u8]) -> usize
    ensures value { result ≡ prefix_len is_digit_of text.now }
    ensures within { result ≤ length text.now }
{
    for (i, byte) in text.iter().enumerate() {
        if !is_digit(*byte) {
            return i;
        }
    }
    text.len()
}

/// How many letters stand at the front.
fn letters_len(text: &[u8]) -> usize
    ensures value { result ≡ prefix_len duration.is_unit_letter text.now }
    ensures within { result ≤ length text.now }
{
    for (i, byte) in text.iter().enumerate() {
        if !is_unit_letter(*byte) {
            return i;
        }
    }
    text.len()
}

/// The milliseconds of the part at the front; nothing where they take more than 64 bits.
fn part_at(text: &[u8]) -> Option<u64>
    ensures { SomeIff result (duration.milliseconds_of (duration.part_at text.now) < 2 ^ 64) (duration.milliseconds_of (duration.part_at text.now)) }
{
    let digits = digits_len(text);
    let behind = &text[digits..];
    let unit = unit_named(&behind[..letters_len(behind)]);
    digits_value(10, &text[..digits])?.checked_mul(unit.milliseconds())
}

/// The milliseconds that a duration stands for; nothing where they take more than 32 bits.
pub fn milliseconds(text: &str) -> Option<u32>
    ensures { SomeIff result (duration.milliseconds text.now < 2 ^ 32) (duration.milliseconds text.now) }
{
    let bytes = text.as_bytes();
    let mut total: u64 = 0;
    let mut after_digit = false;
    for (i, byte) in bytes.iter().enumerate() {
        let digit = is_digit(*byte);
        if digit && !after_digit {
            total = total.checked_add(part_at(&bytes[i..])?)?;
        }
        after_digit = digit;
    }
    u32::try_from(total).ok()
}
