//! All tokens of a source.

ghost use Rattle.std.specs.Prelude.{◌≡◌, ◌<◌, ◌≤◌, ℕ, List, false, length, map, codes, IfOk, IfErr};
ghost use Rattle.plc_text.specs.Code.{is_e17};
ghost use Rattle.plc_text.specs.Text.{folded};
ghost use Rattle.plc_text.specs.Lines.{line_of as line_at};
ghost use Rattle.st_tree.specs.Token.{Token as PlainToken, Tokens, BadAfter};
ghost use Rattle.st_tree.specs.Headings.{declaration_before};
ghost use Rattle.st_lexer.specs.Token.{token_view};
ghost use Rattle.st_lexer.specs.Source.{OnRefused, Says, SaysBad};

use crate::headings::declaration;
use crate::lexer::Lexer;
use crate::token::{Next, Token};
use plc_text::{Code, Denied, Refusal, Text, line_of};
use std::alloc::Global;

/// The bytes that a source may have.
pub const MAX_SOURCE: usize = 1_048_576;

/// A refusal, or want of memory.
fn denied(alloc: Global, code: Code, name: &str, line: u32) -> Denied
    requires { is_e17 code ≡ false }
    ensures { OnRefused result (λ refusal. Says refusal code (folded name.now) line) }
{
    match Text::folded(alloc, name) {
        Ok(declaration) => Denied::Refused(Refusal {
            code,
            declaration,
            line,
            kind: None,
        }),
        Err(_) => Denied::NoMemory,
    }
}

/// The tokens of a source. It is refused with `Code::E16` where it is too long, and with `Code::E01` where a place in it
/// is bad.
pub fn tokens<'a>(alloc: Global, text: &'a str) -> Result<Vec<Token<'a>>, Denied>
    ensures fits { IfOk result (λ found. length text.now ≤ MAX_SOURCE) }
    ensures found { IfOk result (λ found. Tokens text.now (map token_view found.items)) }
    ensures long { IfErr result (λ e. OnRefused e (λ refusal. MAX_SOURCE < length text.now → Says refusal Code.E16 (codes "-") 1)) }
    ensures bad { IfErr result (λ e. OnRefused e (λ refusal. length text.now ≤ MAX_SOURCE → SaysBad text.now refusal)) }
{
    if text.len() > MAX_SOURCE {
        return Err(denied(alloc, Code::E16, "-", 1));
    }
    let mut lexer = Lexer::new(text);
    let mut found = Vec::new(alloc);
    'tokens: loop {
        match lexer.next() {
            Next::Token(token) => found.push(token)?,
            Next::End => return Ok(found),
            Next::Bad(place) => {
                let name = declaration(&found);
                return Err(denied(alloc, Code::E01, name, line_of(text, place)));
            }
        }
    }
}
