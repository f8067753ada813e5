//! The pragmas that count.

ghost use Rattle.std.specs.Prelude.{◌≡◌, ◌↔◌, true, IsSome, IfSome};
ghost use Rattle.std.specs.List.{list_all, take_while};
ghost use Rattle.plc_text.specs.Words.{behind_all, is_blank, is_word_character};
ghost use Rattle.st_tree.specs.Terminal.{is_name as is_name_of};
ghost use Rattle.st_tree.specs.Pieces.{is_pragma as is_pragma_of};
ghost use Rattle.st_tree.specs.Marks as marks;

use crate::characters::{Class, ascii, begins, run};
use crate::reach::pragma_len;
use plc_text::{is_word, opens};
use st_tree::is_keyword;

/// What stands between the braces.
fn inside(pragma: &[u8]) -> &[u8]
    ensures { result.now ≡ marks.inside pragma.now }
{
    if pragma.len() < 2 {
        return &pragma[..0];
    }
    &pragma[1..pragma.len() - 1]
}

fn behind_blanks(text: &[u8]) -> &[u8]
    ensures { result.now ≡ marks.behind_blanks text.now }
{
    &text[run(text, Class::Blank)..]
}

fn are_blank(text: &[u8]) -> bool
    ensures { result ≡ list_all is_blank text.now }
{
    text.iter().all(|byte| Class::Blank.has(*byte))
}

/// Whether the text is `attribute` and a text in quotes.
#[tactic(auto, unfolding(st_tree::specs::Marks::says_attribute))]
fn says_attribute(text: &[u8], quoted: &[u8]) -> bool
    ensures { result ≡ marks.says_attribute quoted.now text.now }
{
    let words = behind_blanks(text);
    if !opens(words, b"ATTRIBUTE") {
        return false;
    }
    let value = behind_blanks(&words[9..]);
    opens(value, quoted) && are_blank(&value[quoted.len()..])
}

/// Whether the text is a word that may name something.
fn is_name(text: &[u8]) -> bool
    ensures { result ≡ is_name_of text.now }
{
    is_word(text) && !is_keyword(text)
}

/// The letters and digits at the front.
fn word_front(text: &[u8]) -> &[u8]
    ensures { result.now ≡ take_while is_word_character text.now }
{
    &text[..run(text, Class::InWord)]
}

fn behind_word(text: &[u8]) -> &[u8]
    ensures { result.now ≡ behind_all is_word_character text.now }
{
    &text[run(text, Class::InWord)..]
}

/// Whether the text is white space, a name and white space.
fn names(text: &[u8]) -> bool
    ensures { result ≡ marks.names text.now }
{
    let rest = behind_blanks(text);
    begins(text, Class::Blank) && is_name(word_front(rest)) && are_blank(behind_word(rest))
}

/// What stands behind the word `renamed_from`, where it is that long.
fn behind_renamed(text: &[u8]) -> &[u8]
    ensures { result.now ≡ marks.behind_renamed text.now }
{
    let words = behind_blanks(text);
    &words[words.len().min(12)..]
}

/// Whether the text is `renamed_from` and a name.
#[tactic(auto, unfolding(st_tree::specs::Marks::says_renamed))]
fn says_renamed(text: &[u8]) -> bool
    ensures { result ≡ marks.says_renamed text.now }
{
    opens(behind_blanks(text), b"RENAMED_FROM") && names(behind_renamed(text))
}

fn is_pragma(text: &[u8]) -> bool
    ensures { result ≡ is_pragma_of text.now }
{
    !text.is_empty() && pragma_len(text) == text.len()
}

/// Whether a text is a mark with an old name.
#[tactic(auto, unfolding(st_tree::specs::Marks::is_renamed))]
fn is_renamed(text: &[u8]) -> bool
    ensures { result ≡ marks.is_renamed text.now }
{
    is_pragma(text) && says_renamed(inside(text))
}

/// Whether a text is the mark `{attribute 'no_copy'}`.
#[tactic(auto, unfolding(st_tree::specs::Marks::is_no_copy))]
pub fn is_no_copy(text: &str) -> bool
    ensures { result ≡ marks.is_no_copy text.now }
{
    let text = text.as_bytes();
    is_pragma(text) && says_attribute(inside(text), b"'NO_COPY'")
}

/// Whether a text is the mark `{attribute 'init_on_onlchange'}`.
#[tactic(auto, unfolding(st_tree::specs::Marks::is_init_on_change))]
pub fn is_init_on_change(text: &str) -> bool
    ensures { result ≡ marks.is_init_on_change text.now }
{
    let text = text.as_bytes();
    is_pragma(text) && says_attribute(inside(text), b"'INIT_ON_ONLCHANGE'")
}

/// The name, as it is spelled, in the mark `{renamed_from NAME}`, and nothing for another text.
pub fn old_name(text: &str) -> Option<&str>
    ensures some { IsSome result ↔ (marks.is_renamed text.now ≡ true) }
    ensures name { IfSome result (λ name. name.now ≡ marks.old_name text.now) }
{
    let text = text.as_bytes();
    if !is_renamed(text) {
        return None;
    }
    Some(ascii(word_front(behind_blanks(behind_renamed(inside(text))))))
}

/// Whether a pragma counts.
#[tactic(auto, unfolding(st_tree::specs::Marks::is_mark, st_tree::specs::Marks::is_no_copy, st_tree::specs::Marks::is_init_on_change, st_tree::specs::Marks::is_renamed))]
pub(crate) fn is_mark(pragma: &[u8]) -> bool
    requires { is_pragma_of pragma.now ≡ true }
    ensures { result ≡ marks.is_mark pragma.now }
{
    let words = inside(pragma);
    says_attribute(words, b"'NO_COPY'")
        || says_attribute(words, b"'INIT_ON_ONLCHANGE'")
        || says_renamed(words)
}
