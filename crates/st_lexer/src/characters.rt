//! Runs of characters, and what a text begins with.

ghost use Rattle.std.specs.Prelude.{◌≡◌, ◌==◌, ◌≤◌, length};
ghost use Rattle.std.specs.Str.{IsAscii};
ghost use Rattle.std.specs.List.{prefix_len};
ghost use Rattle.plc_text.specs.Words as words;
ghost use Rattle.st_tree.specs.Pieces.{opens_comment as opens_comment_of};
ghost use Rattle.st_lexer.specs.Private.Characters.{test_of};

use plc_text::{is_blank, is_digit, is_letter, is_word_character, opens};
use std::str;

/// Characters of one kind.
#[derive(Clone, Copy)]
pub(crate) enum Class {
    /// Digits of base 2.
    Binary,
    /// Digits of base 8.
    Octal,
    Decimal,
    Hexadecimal,
    /// White space.
    Blank,
    /// Letters, digits and underscores.
    InWord,
    /// All but the line feed.
    InLine,
}

impl Class {
    #[inline]
    pub(crate) fn has(self, byte: u8) -> bool
        ensures { result ≡ test_of self byte }
    {
        match self {
            Class::Binary => byte == b'0' || byte == b'1',
            Class::Octal => byte >= b'0' && byte <= b'7',
            Class::Decimal => is_digit(byte),
            Class::Hexadecimal => byte.is_ascii_hexdigit(),
            Class::Blank => is_blank(byte),
            Class::InWord => is_word_character(byte),
            Class::InLine => byte != b'\n',
        }
    }
}

/// The bytes as text.
pub(crate) fn ascii(bytes: &[u8]) -> &str
    requires { IsAscii bytes.now }
    ensures { result.now ≡ bytes.now }
{
    match str::from_utf8(bytes) {
        Ok(text) => text,
        Err(_) => unreachable!(),
    }
}

/// How many bytes from the front on are of the class.
#[inline]
pub(crate) fn run(text: &[u8], class: Class) -> usize
    ensures value { result ≡ prefix_len (test_of class) text.now }
    ensures within { result ≤ length text.now }
{
    for (i, byte) in text.iter().enumerate() {
        if !class.has(*byte) {
            return i;
        }
    }
    text.len()
}

/// Whether the text has a first byte of the class.
pub(crate) fn begins(text: &[u8], class: Class) -> bool
    ensures { result ≡ words.begins (test_of class) text.now }
{
    !text.is_empty() && class.has(text[0])
}

/// Whether the text begins with an ASCII letter or an underscore.
pub(crate) fn begins_letter(text: &[u8]) -> bool
    ensures { result ≡ words.begins words.is_letter text.now }
{
    !text.is_empty() && is_letter(text[0])
}

/// Whether the text begins with this byte.
pub(crate) fn begins_with(text: &[u8], byte: u8) -> bool
    ensures { result ≡ words.begins (λ c. c == byte) text.now }
{
    !text.is_empty() && text[0] == byte
}

/// Whether `(*`, `/*` or `//` stands at the front.
pub(crate) fn opens_comment(text: &[u8]) -> bool
    ensures { result ≡ opens_comment_of text.now }
{
    opens(text, b"(*") || opens(text, b"/*") || opens(text, b"//")
}
