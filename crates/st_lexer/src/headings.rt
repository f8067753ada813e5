//! The declaration that a place is in.

ghost use Rattle.std.specs.Prelude.{◌≡◌, map};
ghost use Rattle.plc_text.specs.Text.{folded};
ghost use Rattle.st_tree.specs.Reads.{lexemes};
ghost use Rattle.st_tree.specs.Headings as headings;
ghost use Rattle.st_lexer.specs.Token.{token_view};

use crate::token::Token;
use st_tree::Terminal;

pub fn is_heading(terminal: Terminal) -> bool
    ensures { result ≡ headings.is_heading terminal }
{
    matches!(
        terminal,
        Terminal::Type
            | Terminal::Interface
            | Terminal::Class
            | Terminal::FunctionBlock
            | Terminal::Function
            | Terminal::Program
            | Terminal::Configuration
    )
}

pub fn is_modifier(terminal: Terminal) -> bool
    ensures { result ≡ headings.is_modifier terminal }
{
    matches!(terminal, Terminal::Abstract | Terminal::Final)
}

pub fn is_word(terminal: Terminal) -> bool
    ensures { result ≡ headings.is_word terminal }
{
    matches!(terminal, Terminal::Word)
}

/// The name at the front, as it is spelled, behind ABSTRACT and FINAL; `-` where none stands there.
fn name_at<'a>(tokens: &[Token<'a>]) -> &'a str
    ensures { folded result.now ≡ headings.name_at (lexemes (map token_view tokens.now)) }
{
    for token in tokens {
        if let Some(terminal) = token.terminal {
            if !is_modifier(terminal) {
                return if is_word(terminal) { token.text } else { "-" };
            }
        }
    }
    "-"
}

/// The name, as it is spelled, of the declaration of the place behind these tokens; `-` where none begins before it.
pub fn declaration<'a>(tokens: &[Token<'a>]) -> &'a str
    ensures { folded result.now ≡ headings.declaration_before (map token_view tokens.now) }
{
    let mut place = tokens.len();
    'tokens: while place > 0 {
        place -= 1;
        let token = tokens[place];
        if let Some(terminal) = token.terminal {
            if is_heading(terminal) {
                return name_at(&tokens[place + 1..]);
            }
        }
    }
    "-"
}
