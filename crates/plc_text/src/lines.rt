//! The lines of a text, one after another, and the line that a place is on.

ghost use Rattle.std.specs.Prelude.{◌≡◌, ◌<◌, ◌≤◌, [], ◌∷◌, length, MatchOption};
ghost use Rattle.plc_text.specs.Lines.{line_of, lines_of};

use std::marker::Model;

/// A part of a source, as byte offsets: from `start` up to and without `end`.
#[derive(Clone, Copy, Debug, PartialEq, Eq, Hash)]
pub struct Span {
    pub start: u32,
    pub end: u32,
}

/// The number of the line that the byte at `place` is on. The first line is 1, and a line feed ends
/// the line that it stands on.
pub fn line_of(text: &str, place: u32) -> u32
    requires within { place ≤ length text.now }
    requires countable { place < u32.MAX }
    ensures { result ≡ line_of text.now place }
{
    let before = &text.as_bytes()[..place as usize];
    1 + before.iter().filter(|byte| **byte == b'\n').count() as u32
}

/// The lines of a text that are still to be read. Contracts see them as a list.
#[derive(Drop)]
pub struct Lines<'a> {
    rest: &'a str,
}

impl<'a> Model for Lines<'a> {
    ghost use Rattle.std.specs.Prelude.{List, ℕ};
    ghost use Rattle.plc_text.specs.Lines.{lines_of};

    ghost Value = { List (List ℕ) };

    ghost view = { λ lines. lines_of lines.rest.now };
}

impl<'a> Lines<'a> {
    /// The lines of the text. LF ends a line, and a last piece without LF is a line unless it is empty.
    pub fn new(text: &'a str) -> Lines<'a>
        ensures { result ≡ lines_of text.now }
    {
        Lines { rest: text }
    }

    /// Takes the next line, if there is one. It comes without the LF that ends it.
    pub fn next_line(&mut self) -> Option<&'a str>
        ensures { MatchOption result ((self.old ≡ []) × (self.new ≡ [])) (λ line. self.old ≡ line.now ∷ self.new) }
    {
        if self.rest.is_empty() {
            return None;
        }
        let (line, rest) = first_line(self.rest);
        self.rest = rest;
        Some(line)
    }
}

/// The first line of a text and what follows its end.
fn first_line(text: &str) -> (&str, &str)
    requires { 0 < length text.now }
    ensures { lines_of text.now ≡ result.0.now ∷ lines_of result.1.now }
{
    match text.split_once('\n') {
        Some(parts) => parts,
        None => (text, ""),
    }
}
