//! Characters and words (IEC 61131-3:2013, 6.1). Letter case does not count.

ghost use Rattle.std.specs.Prelude.{◌≡◌, ◌≤◌, length, IsTrue};
ghost use Rattle.std.specs.List.{list_all};
ghost use Rattle.plc_text.specs.Words as words_spec;

/// Whether the byte is a decimal digit.
#[inline]
pub fn is_digit(byte: u8) -> bool
    ensures { result ≡ words_spec.is_digit byte }
{
    byte.is_ascii_digit()
}

/// Whether the byte is an ASCII letter or an underscore.
#[inline]
pub fn is_letter(byte: u8) -> bool
    ensures { result ≡ words_spec.is_letter byte }
{
    byte.is_ascii_alphabetic() || byte == b'_'
}

/// Whether the byte is a letter, an underscore or a digit.
#[inline]
pub fn is_word_character(byte: u8) -> bool
    ensures { result ≡ words_spec.is_word_character byte }
{
    is_letter(byte) || is_digit(byte)
}

/// Whether the byte is a space, a tab, a line feed or a carriage return.
#[inline]
pub fn is_blank(byte: u8) -> bool
    ensures { result ≡ words_spec.is_blank byte }
{
    byte == b' ' || byte == b'\t' || byte == b'\n' || byte == b'\r'
}

/// Whether the text is a word: a letter or an underscore, then letters, underscores and digits.
pub fn is_word(text: &[u8]) -> bool
    ensures { result ≡ words_spec.is_word text.now }
{
    match text.split_first() {
        Some((first, others)) => is_letter(*first) && are_word_characters(others),
        None => false,
    }
}

fn are_word_characters(text: &[u8]) -> bool
    ensures { result ≡ list_all words_spec.is_word_character text.now }
{
    text.iter().all(|byte| is_word_character(*byte))
}

/// Whether the text is a number: one decimal digit or more.
pub fn is_number(text: &[u8]) -> bool
    ensures { result ≡ words_spec.is_number text.now }
{
    match text.split_first() {
        Some((first, others)) => is_digit(*first) && are_digits(others),
        None => false,
    }
}

fn are_digits(text: &[u8]) -> bool
    ensures { result ≡ list_all words_spec.is_digit text.now }
{
    text.iter().all(|byte| is_digit(*byte))
}

/// Whether the text is a word in upper case.
pub fn is_upper_word(text: &[u8]) -> bool
    ensures { result ≡ words_spec.is_upper_word text.now }
{
    is_word(text) && spells(text, text)
}

/// Whether the text in upper case is the word.
pub fn spells(text: &[u8], word: &[u8]) -> bool
    ensures { result ≡ words_spec.spells word.now text.now }
{
    if text.len() != word.len() {
        return false;
    }
    for i in 0..text.len() {
        if text[i].to_ascii_uppercase() != word[i] {
            return false;
        }
    }
    true
}

/// Whether the text begins with the word, letter case apart.
pub fn opens(text: &[u8], word: &[u8]) -> bool
    ensures value { result ≡ words_spec.opens word.now text.now }
    ensures within { IsTrue result → length word.now ≤ length text.now }
{
    text.len() >= word.len() && spells(&text[..word.len()], word)
}
