//! The longest piece at a place.

ghost use Rattle.std.specs.Prelude.{◌≡◌, ◌<◌, ◌==◌, false, true, length};
ghost use Rattle.plc_text.specs.Words as words;
ghost use Rattle.st_tree.specs.Pieces as pieces_spec;
ghost use Rattle.st_lexer.specs.Private.Reach as reach;
ghost use Rattle.st_lexer.specs.Private.Piece.{IsPieceAt, BeginsSymbol};

use crate::characters::opens_comment;
use crate::marks::is_mark;
use crate::reach::{address_len, comment_len, int_len, pragma_len, time_len, word_len};
use plc_text::{is_digit, is_letter};
use st_tree::{Terminal, TokenKind, keyword, symbol};

/// The longest piece at a place that is not white space.
#[derive(Clone, Copy)]
pub(crate) enum Piece {
    /// No piece begins there.
    Bad,
    /// A comment or a pragma that does not count, and its length in bytes.
    Passed(usize),
    /// A pragma that counts, and its length in bytes.
    Mark(usize),
    /// Another token: its length in bytes, its kind, and what it is to the grammar.
    Token(usize, TokenKind, Terminal),
}

/// A word, or a time behind `T#` or `TIME#`.
fn word_at(text: &[u8]) -> Piece
    requires { words.begins words.is_letter text.now ≡ true }
    ensures { IsPieceAt text.now result }
{
    let len = word_len(text);
    if len == 0 {
        return time_at(text);
    }
    match keyword(&text[..len]) {
        Some(terminal) => Piece::Token(len, TokenKind::Keyword, terminal),
        None => Piece::Token(len, TokenKind::Word, Terminal::Word),
    }
}

/// A time behind `T#` or `TIME#`.
fn time_at(text: &[u8]) -> Piece
    requires letter { words.begins words.is_letter text.now ≡ true }
    requires no_word { reach.word_len text.now ≡ 0 }
    ensures { IsPieceAt text.now result }
{
    let len = time_len(text);
    if len == 0 {
        return Piece::Bad;
    }
    Piece::Token(len, TokenKind::Time, Terminal::Duration)
}

fn int_at(text: &[u8]) -> Piece
    requires { words.begins words.is_digit text.now ≡ true }
    ensures { IsPieceAt text.now result }
{
    Piece::Token(int_len(text), TokenKind::Int, Terminal::Int)
}

fn address_at(text: &[u8]) -> Piece
    requires { words.begins (λ c. c == 37) text.now ≡ true }
    ensures { IsPieceAt text.now result }
{
    let len = address_len(text);
    if len == 0 {
        return Piece::Bad;
    }
    Piece::Token(len, TokenKind::Address, Terminal::Address)
}

fn pragma_at(text: &[u8]) -> Piece
    requires { words.begins (λ c. c == 123) text.now ≡ true }
    ensures { IsPieceAt text.now result }
{
    let len = pragma_len(text);
    if len == 0 {
        return Piece::Bad;
    }
    if is_mark(&text[..len]) {
        Piece::Mark(len)
    } else {
        Piece::Passed(len)
    }
}

fn comment_at(text: &[u8]) -> Piece
    requires { pieces_spec.opens_comment text.now ≡ true }
    ensures { IsPieceAt text.now result }
{
    let len = comment_len(text);
    if len == 0 {
        return Piece::Bad;
    }
    Piece::Passed(len)
}

/// A symbol, of two characters where it can be.
fn symbol_at(text: &[u8]) -> Piece
    requires { BeginsSymbol text.now }
    ensures { IsPieceAt text.now result }
{
    if text.len() > 1 {
        if let Some(terminal) = symbol(&text[..2]) {
            return Piece::Token(2, TokenKind::Symbol, terminal);
        }
    }
    match symbol(&text[..1]) {
        Some(terminal) => Piece::Token(1, TokenKind::Symbol, terminal),
        None => Piece::Bad,
    }
}

/// The longest piece at the front of a text that begins with no white space.
pub(crate) fn piece_at(text: &[u8]) -> Piece
    requires some { 0 < length text.now }
    requires inked { words.begins words.is_blank text.now ≡ false }
    ensures { IsPieceAt text.now result }
{
    let first = text[0];
    if is_letter(first) {
        word_at(text)
    } else if is_digit(first) {
        int_at(text)
    } else if first == b'%' {
        address_at(text)
    } else if first == b'{' {
        pragma_at(text)
    } else if opens_comment(text) {
        comment_at(text)
    } else {
        symbol_at(text)
    }
}
