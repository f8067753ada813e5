//! One token after the other.

ghost use Rattle.std.specs.Prelude.{◌≡◌, ◌+◌, ◌<◌, ◌≤◌, false, [], ◌∷◌, length, drop};
ghost use Rattle.plc_text.specs.Lines.{line_of};
ghost use Rattle.plc_text.specs.Words.{begins, is_blank as is_blank_of};
ghost use Rattle.st_tree.specs.Token.{Lexes};
ghost use Rattle.st_lexer.specs.Token.{token_view};
ghost use Rattle.st_lexer.specs.Lexer.{GivesNext};
ghost use Rattle.st_lexer.specs.Private.Piece.{BeginsToken, line_feeds as line_feeds_of};

use crate::piece::{Piece, piece_at};
use crate::token::{Next, Token};
use plc_text::{Span, is_blank};
use st_tree::{Terminal, TokenKind};
use std::marker::Model;

fn line_feeds(bytes: &[u8]) -> u32
    requires { length bytes.now < u32.MAX }
    ensures { result ≡ line_feeds_of bytes.now }
{
    let mut feeds = 0;
    for byte in bytes {
        if *byte == b'\n' {
            feeds += 1;
        }
    }
    feeds
}

/// A place in a source, with its line.
#[derive(Clone, Copy)]
struct Place {
    at: usize,
    line: u32,
}

/// The first place from a place on that is not white space.
fn behind_blanks(text: &[u8], place: Place) -> Place
    requires within { place.at ≤ length text.now }
    requires short { length text.now < u32.MAX }
    requires counted { place.line ≡ line_of text.now place.at }
    ensures within { result.at ≤ length text.now }
    ensures counted { result.line ≡ line_of text.now result.at }
    ensures passed { Lexes text.now place.at [] result.at }
    ensures ends { begins is_blank_of (drop result.at text.now) ≡ false }
{
    let mut at = place.at;
    let mut line = place.line;
    'blanks: while at < text.len() && is_blank(text[at]) {
        if text[at] == b'\n' {
            line += 1;
        }
        at += 1;
    }
    Place { at, line }
}

/// What comes next, and the place behind it.
#[derive(Clone, Copy)]
struct Found<'a> {
    next: Next<'a>,
    place: Place,
}

/// The place behind so many bytes.
fn behind(text: &[u8], place: Place, len: usize) -> Place
    requires within { place.at + len ≤ length text.now }
    requires short { length text.now < u32.MAX }
    requires counted { place.line ≡ line_of text.now place.at }
    ensures at { result.at ≡ place.at + len }
    ensures counted { result.line ≡ line_of text.now result.at }
{
    let at = place.at + len;
    Place {
        at,
        line: place.line + line_feeds(&text[place.at..at]),
    }
}

/// The token of this length at a place.
fn token_at<'a>(
    text: &'a str,
    place: Place,
    len: usize,
    kind: TokenKind,
    terminal: Option<Terminal>,
) -> Token<'a>
    requires within { place.at ≤ length text.now }
    requires short { length text.now < u32.MAX }
    requires counted { place.line ≡ line_of text.now place.at }
    requires begins { BeginsToken (drop place.at text.now) len kind terminal }
    ensures lexed { Lexes text.now place.at (token_view result ∷ []) (place.at + len) }
    ensures end { result.span.end ≡ place.at + len }
{
    let end = place.at + len;
    Token {
        kind,
        terminal,
        line: place.line,
        text: &text[place.at..end],
        span: Span {
            start: place.at as u32,
            end: end as u32,
        },
    }
}

/// What comes next from a place on.
fn next_from<'a>(text: &'a str, place: Place) -> Found<'a>
    requires within { place.at ≤ length text.now }
    requires short { length text.now < u32.MAX }
    requires counted { place.line ≡ line_of text.now place.at }
    ensures within { result.place.at ≤ length text.now }
    ensures counted { result.place.line ≡ line_of text.now result.place.at }
    ensures given { GivesNext text.now place.at result.next result.place.at }
{
    let bytes = text.as_bytes();
    let mut start = behind_blanks(bytes, place);
    'pieces: while start.at < bytes.len() {
        match piece_at(&bytes[start.at..]) {
            Piece::Bad => {
                return Found {
                    next: Next::Bad(start.at as u32),
                    place: start,
                };
            }
            Piece::Passed(len) => start = behind_blanks(bytes, behind(bytes, start, len)),
            Piece::Mark(len) => {
                return Found {
                    next: Next::Token(token_at(text, start, len, TokenKind::Mark, None)),
                    place: behind(bytes, start, len),
                };
            }
            Piece::Token(len, kind, terminal) => {
                return Found {
                    next: Next::Token(token_at(text, start, len, kind, Some(terminal))),
                    place: Place {
                        at: start.at + len,
                        line: start.line,
                    },
                };
            }
        }
    }
    Found {
        next: Next::End,
        place: start,
    }
}

/// Goes through the tokens of a source.
#[derive(Drop)]
pub struct Lexer<'a> {
    text: &'a str,
    /// The place that is read next.
    place: Place,
}

impl<'a> Model for Lexer<'a> {
    ghost use Rattle.std.specs.Prelude.{◌≡◌, ◌<◌, ◌≤◌, ◌-◌, ◌^◌, length};
    ghost use Rattle.plc_text.specs.Lines.{line_of};
    ghost use Rattle.st_lexer.specs.Lexer.{Position};

    ghost Value = { Position };

    ghost view = { λ l. record { source = l.text.now; place = l.place.at } };

    ghost invariant = { λ l. (l.place.at ≤ length l.text.now) × (length l.text.now < 2 ^ 32 - 1) × (l.place.line ≡ line_of l.text.now l.place.at) };
}

impl<'a> Lexer<'a> {
    /// A lexer at the beginning of the text.
    pub fn new(text: &'a str) -> Lexer<'a>
        requires { length text.now < u32.MAX }
        ensures { result ≡ record { source = text.now; place = 0 } }
    {
        Lexer {
            text,
            place: Place { at: 0, line: 1 },
        }
    }

    /// What comes next. After the end and after a bad place the same comes again.
    pub fn next(&mut self) -> Next<'a>
        ensures same { self.new.source ≡ self.old.source }
        ensures given { GivesNext self.old.source self.old.place result self.new.place }
    {
        let found = next_from(self.text, self.place);
        self.place = found.place;
        found.next
    }
}
