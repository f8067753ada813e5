//! The declaration and the line that a place among lexemes is in.

ghost use Rattle.std.specs.Prelude.{◌≡◌, ◌<◌, ◌≤◌, length, codes, IfOk, IfErr};
ghost use Rattle.st_tree.specs.Headings as headings;
ghost use Rattle.st_tree.specs.NoUnit as no_unit;
ghost use Rattle.st_lexer.specs.Lexeme.{lexemes_of};
ghost use Rattle.st_parser_expr.specs.declared.stop.Stop.TheVariants.{NoMemory};

use plc_text::{Text, line_of};
use st_lexer::{Lexeme, is_heading, is_modifier, is_word};
use st_parser_expr::{Cursor, Stop};
use std::alloc::Global;

fn no_name(alloc: Global) -> Result<Text, Stop>
    ensures ok { IfOk result (λ name. name ≡ codes "-") }
    ensures err { IfErr result (λ e. e ≡ NoMemory) }
{
    Ok(Text::folded(alloc, "-")?)
}

/// The name that comes next, behind ABSTRACT and FINAL; `-` where none does.
fn name_next(alloc: Global, tokens: &mut Cursor<'_, '_>) -> Result<Text, Stop>
    ensures ok { IfOk result (λ name. name ≡ headings.name_at tokens.old) }
    ensures err { IfErr result (λ e. e ≡ NoMemory) }
{
    while let Some(terminal) = tokens.peek() {
        if is_word(terminal) {
            return tokens.take_text(alloc);
        }
        if !is_modifier(terminal) {
            return no_name(alloc);
        }
        tokens.bump();
    }
    no_name(alloc)
}

/// The declaration of a place: the name behind the last heading before it; `-` where there is none.
pub fn declaration_of(alloc: Global, lexemes: &[Lexeme<'_>], place: usize) -> Result<Text, Stop>
    requires { place ≤ length lexemes.now }
    ensures ok { IfOk result (λ name. name ≡ headings.declaration_of place (lexemes_of lexemes.now)) }
    ensures err { IfErr result (λ e. e ≡ NoMemory) }
{
    let mut at = place;
    'search: while at > 0 {
        at -= 1;
        let mut tokens = Cursor::new(lexemes, at);
        if let Some(terminal) = tokens.peek() {
            if is_heading(terminal) {
                tokens.bump();
                return name_next(alloc, &mut tokens);
            }
        }
    }
    no_name(alloc)
}

/// The line of a place: that of the lexeme there, or of the text's end behind the last.
pub fn line_at(text: &str, lexemes: &[Lexeme<'_>], place: usize) -> u32
    requires { length text.now < u32.MAX }
    ensures { result ≡ no_unit.line_at text.now (lexemes_of lexemes.now) place }
{
    if place < lexemes.len() {
        Cursor::new(lexemes, place).line()
    } else {
        line_of(text, text.len() as u32)
    }
}
