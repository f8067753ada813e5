//! The tokens of a source.

ghost use Rattle.std.specs.Prelude.{◌≡◌};
ghost use Rattle.plc_text.specs.Text.{folded};
ghost use Rattle.st_tree.specs.Reads.{terminal_of};

use plc_text::Span;
use st_tree::{Terminal, TokenKind};

/// A token of a source.
#[derive(Clone, Copy, Debug, PartialEq, Eq)]
pub struct Token<'a> {
    pub kind: TokenKind,
    /// What it is to the grammar: nothing where it is a mark.
    pub terminal: Option<Terminal>,
    /// The line in the source that the token begins on, from 1.
    pub line: u32,
    /// The part of the source at the span.
    pub text: &'a str,
    pub span: Span,
    ghost told: { terminal ≡ terminal_of kind (folded text.now) },
}

/// What comes next in a source.
#[derive(Clone, Copy, Debug, PartialEq, Eq)]
pub enum Next<'a> {
    Token(Token<'a>),
    /// Nothing more.
    End,
    /// A place where neither a token nor white space, a comment or a pragma begins.
    Bad(u32),
}
