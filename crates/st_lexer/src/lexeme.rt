//! Tokens as the grammar sees them.

ghost use Rattle.std.specs.Prelude.{◌≡◌, map, IfOk};
ghost use Rattle.st_tree.specs.Reads as reads;
ghost use Rattle.st_lexer.specs.Token.{token_view};
ghost use Rattle.st_lexer.specs.Lexeme.{marks_of, lexemes_of};

use crate::marks::{is_init_on_change, is_no_copy, old_name};
use crate::token::Token;
use plc_text::{Boxed, NoMemory, Text};
use st_tree::{Marks, Terminal};
use std::alloc::Global;

/// A token as the grammar sees it, with the marks between the token before it and it.
#[derive(Drop)]
pub struct Lexeme<'a> {
    pub terminal: Terminal,
    /// The line in the source that it begins on, from 1.
    pub line: u32,
    /// As it is written, in upper or lower case.
    pub text: &'a str,
    /// The marks, where there are any.
    pub marks: Option<Boxed<Marks>>,
}

impl<'a> Lexeme<'a> {
    /// The marks as a value of its own.
    pub fn copy_marks(&self, alloc: Global) -> Result<Marks, NoMemory>
        ensures { IfOk result (λ marks. marks ≡ marks_of self.now.marks) }
    {
        match &self.marks {
            Some(marks) => marks.get().copy(alloc),
            None => Ok(Marks::none()),
        }
    }
}

/// The old name, where there is none yet and the mark has one.
fn first_name(alloc: Global, name: Option<Text>, mark: &str) -> Result<Option<Text>, NoMemory>
    ensures { IfOk result (λ first. first ≡ reads.first_name name mark.now) }
{
    if let Some(name) = name {
        return Ok(Some(name));
    }
    match old_name(mark) {
        Some(name) => Ok(Some(Text::folded(alloc, name)?)),
        None => Ok(None),
    }
}

/// The marks with one more.
fn with_mark(
    alloc: Global,
    marks: Option<Boxed<Marks>>,
    mark: &str,
) -> Result<Boxed<Marks>, NoMemory>
    ensures { IfOk result (λ more. more ≡ reads.with_mark (marks_of marks) mark.now) }
{
    let before = match marks {
        Some(marks) => marks.into_inner(),
        None => Marks::none(),
    };
    let Marks {
        no_copy,
        init_on_change,
        renamed_from,
    } = before;
    let renamed_from = first_name(alloc, renamed_from, mark)?;
    let more = Marks {
        no_copy: no_copy || is_no_copy(mark),
        init_on_change: init_on_change || is_init_on_change(mark),
        renamed_from,
    };
    Ok(Boxed::new(alloc, more)?)
}

/// The lexemes of tokens: a mark is passed over and counts for what stands behind it.
pub fn lexemes<'a>(alloc: Global, tokens: &[Token<'a>]) -> Result<Vec<Lexeme<'a>>, NoMemory>
    ensures { IfOk result (λ found. lexemes_of found.items ≡ reads.lexemes (map token_view tokens.now)) }
{
    let mut found = Vec::with_capacity(alloc, tokens.len())?;
    let mut marks = None;
    for token in tokens {
        if let Some(terminal) = token.terminal {
            found.push(Lexeme {
                terminal,
                line: token.line,
                text: token.text,
                marks: marks.take(),
            })?;
        } else {
            marks = Some(with_mark(alloc, marks.take(), token.text)?);
        }
    }
    Ok(found)
}
