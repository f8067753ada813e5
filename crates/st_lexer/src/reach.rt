//! How far each form of piece reaches from the front of a text.

ghost use Rattle.std.specs.Prelude.{◌≡◌, ◌+◌, ◌<◌, ◌≤◌, ◌^◌, length, map};
ghost use Rattle.st_lexer.specs.Private.Characters.{test_of};
ghost use Rattle.st_lexer.specs.Private.Reach as reach;

use crate::characters::{Class, begins_letter, begins_with, run};
use plc_text::{opens, spells};

/// The length of a head and of what stands behind it, 0 where nothing stands behind it.
fn with_head(head: usize, tail: usize) -> usize
    requires { head + tail < 2 ^ 64 }
    ensures { result ≡ reach.with_head head tail }
{
    if tail == 0 { 0 } else { head + tail }
}

/// The length up to the end of the first mark, 0 where there is none.
fn closing_len(text: &[u8], mark: &[u8]) -> usize
    requires { 0 < length mark.now }
    ensures value { result ≡ reach.closing_from mark.now 0 text.now }
    ensures within { result ≤ length text.now }
{
    for i in 0..text.len() {
        if opens(&text[i..], mark) {
            return i + mark.len();
        }
    }
    0
}

/// From a head to the end of the first mark behind it.
fn block_len(text: &[u8], head: &[u8], mark: &[u8]) -> usize
    requires { 0 < length mark.now }
    ensures { result ≡ reach.block_len head.now mark.now text.now }
{
    if opens(text, head) {
        with_head(head.len(), closing_len(&text[head.len()..], mark))
    } else {
        0
    }
}

/// From `//` to the end of the line.
fn line_len(text: &[u8]) -> usize
    ensures { result ≡ reach.line_len text.now }
{
    if opens(text, b"//") {
        2 + run(&text[2..], Class::InLine)
    } else {
        0
    }
}

pub(crate) fn comment_len(text: &[u8]) -> usize
    ensures { result ≡ reach.comment_len text.now }
{
    block_len(text, b"(*", b"*)").max(block_len(text, b"/*", b"*/").max(line_len(text)))
}

pub(crate) fn pragma_len(text: &[u8]) -> usize
    ensures { result ≡ reach.pragma_len text.now }
{
    block_len(text, b"{", b"}")
}

/// How far digits reach, with single underscores between them.
fn digits_len(text: &[u8], class: Class) -> usize
    ensures value { result ≡ reach.digits_len (test_of class) text.now }
    ensures within { result ≤ length text.now }
{
    let mut len = 0;
    let mut after_digit = false;
    for (i, byte) in text.iter().enumerate() {
        if class.has(*byte) {
            len = i + 1;
            after_digit = true;
        } else if *byte == b'_' && after_digit {
            after_digit = false;
        } else {
            return len;
        }
    }
    len
}

/// How far a base and its digits reach.
fn based_len(text: &[u8], head: &[u8], class: Class) -> usize
    ensures { result ≡ reach.based_len head.now (test_of class) text.now }
{
    if opens(text, head) {
        with_head(head.len(), digits_len(&text[head.len()..], class))
    } else {
        0
    }
}

pub(crate) fn int_len(text: &[u8]) -> usize
    ensures { result ≡ reach.int_len text.now }
{
    let octal_or_more = based_len(text, b"8#", Class::Octal).max(based_len(
        text,
        b"16#",
        Class::Hexadecimal,
    ));
    let based = based_len(text, b"2#", Class::Binary).max(octal_or_more);
    digits_len(text, Class::Decimal).max(based)
}

const UNITS: [&str; 5] = ["D", "H", "M", "S", "MS"];

/// How far digits and the unit reach. `M` is no unit before `S`.
fn part_len(text: &[u8], unit: &[u8]) -> usize
    ensures value { result ≡ reach.part_len unit.now text.now }
    ensures within { result ≤ length text.now }
{
    let digits = run(text, Class::Decimal);
    let behind = &text[digits..];
    if digits == 0 || !opens(behind, unit) || spells(unit, b"M") && opens(behind, b"MS") {
        0
    } else {
        digits + unit.len()
    }
}

fn underscore_len(text: &[u8]) -> usize
    ensures value { result ≡ reach.underscore_len text.now }
    ensures within { result ≤ length text.now }
{
    if begins_with(text, b'_') { 1 } else { 0 }
}

/// How far parts with the units reach, each unit once at most, in their order.
fn parts_len(text: &[u8], units: &[&str]) -> usize
    ensures value { result ≡ reach.parts_len (map (λ unit. unit.now) units.now) text.now }
    ensures within { result ≤ length text.now }
{
    let Some((unit, smaller)) = units.split_first() else {
        return 0;
    };
    let part = part_len(text, unit.as_bytes());
    if part == 0 {
        return parts_len(text, smaller);
    }
    let gap = underscore_len(&text[part..]);
    part + with_head(gap, parts_len(&text[part + gap..], smaller))
}

fn timed_len(text: &[u8], head: &[u8]) -> usize
    ensures { result ≡ reach.timed_len head.now text.now }
{
    if opens(text, head) {
        with_head(head.len(), parts_len(&text[head.len()..], &UNITS))
    } else {
        0
    }
}

pub(crate) fn time_len(text: &[u8]) -> usize
    ensures { result ≡ reach.time_len text.now }
{
    timed_len(text, b"T#").max(timed_len(text, b"TIME#"))
}

/// How far digits, a point and digits reach.
fn bit_len(text: &[u8]) -> usize
    ensures value { result ≡ reach.bit_len text.now }
    ensures within { result ≤ length text.now }
{
    let digits = run(text, Class::Decimal);
    if digits == 0 || !opens(&text[digits..], b".") {
        return 0;
    }
    with_head(digits + 1, run(&text[digits + 1..], Class::Decimal))
}

fn bit_with_width_len(text: &[u8]) -> usize
    ensures { result ≡ reach.bit_with_width_len text.now }
{
    if opens(text, b"X") {
        with_head(1, bit_len(&text[1..]))
    } else {
        0
    }
}

fn wide_len(text: &[u8]) -> usize
    ensures { result ≡ reach.wide_len text.now }
{
    if opens(text, b"B") || opens(text, b"W") || opens(text, b"D") || opens(text, b"L") {
        with_head(1, run(&text[1..], Class::Decimal))
    } else {
        0
    }
}

/// How far the part of an address behind `I`, `Q` or `M` reaches.
fn location_len(text: &[u8]) -> usize
    ensures value { result ≡ reach.location_len text.now }
    ensures within { result ≤ length text.now }
{
    bit_len(text).max(bit_with_width_len(text).max(wide_len(text)))
}

pub(crate) fn address_len(text: &[u8]) -> usize
    ensures { result ≡ reach.address_len text.now }
{
    if opens(text, b"%I") || opens(text, b"%Q") || opens(text, b"%M") {
        with_head(2, location_len(&text[2..]))
    } else {
        0
    }
}

/// How far a word reaches. `T` and `TIME` before `#` are none.
pub(crate) fn word_len(text: &[u8]) -> usize
    ensures { result ≡ reach.word_len text.now }
{
    if !begins_letter(text) {
        return 0;
    }
    let len = run(text, Class::InWord);
    let word = &text[..len];
    if (spells(word, b"T") || spells(word, b"TIME")) && begins_with(&text[len..], b'#') {
        0
    } else {
        len
    }
}
