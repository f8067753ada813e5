//! Program texts as a whole, whose brackets, signs and statements stand no deeper than 64.

ghost use Rattle.std.specs.Prelude.{◌≡◌, ◌+◌, ◌<◌, ◌≤◌, false, length, map, IfOk, IfErr};
ghost use Rattle.plc_text.specs.Code.{is_e17};
ghost use Rattle.st_tree.specs.Token.{Tokens};
ghost use Rattle.st_tree.specs.Reads as reads;
ghost use Rattle.st_tree.specs.Declarations.{Derives};
ghost use Rattle.st_tree.specs.NoUnit as no_unit;
ghost use Rattle.st_lexer.specs.Token.{token_view};
ghost use Rattle.st_lexer.specs.Lexeme.{lexemes_of};
ghost use Rattle.st_lexer.specs.Source.{OnRefused};
ghost use Rattle.st_parser_expr.specs.Private.Promises.{IsWithin};
ghost use Rattle.st_parser_decl.specs.Law as law;
ghost use Rattle.st_parser_decl.specs.Reading as r;
ghost use Rattle.st_parser_decl.specs.Private.Causes as causes;

use crate::place::{declaration_of, line_at};
use crate::unit::declarations;
use plc_text::{Code, Denied, Refusal};
use st_lexer::{Lexeme, Token, lexemes};
use st_parser_expr::{Cursor, Stop, first_deep};
use st_tree::Unit;
use std::alloc::Global;

/// Why lexemes are no unit, and the place of the lexeme where it shows.
#[derive(Clone, Copy, Debug)]
pub enum Cause {
    /// No unit begins with the lexemes up to and with this one, or more are wanted behind all of them.
    NoUnit(usize),
    /// The first lexeme of nesting 65.
    TooDeep(usize),
    NoMemory,
}

/// The unit that all the lexemes are, however deep they stand.
fn whole(alloc: Global, lexemes: &[Lexeme<'_>]) -> Result<Unit, Stop>
    ensures ok { IfOk result (λ unit. Derives (lexemes_of lexemes.now) unit) }
    ensures err { IfErr result (causes.HasStop (lexemes_of lexemes.now)) }
{
    let mut tokens = Cursor::new(lexemes, 0);
    let decls = declarations(alloc, &mut tokens)?;
    let left = tokens.left();
    if left > 0 {
        return Err(Stop::Left(left));
    }
    Ok(Unit { decls })
}

/// Where none of all lexemes is too deep.
fn none_deep_cause(stop: Stop, all: usize) -> Cause
    requires { IsWithin all stop }
    ensures { result ≡ causes.none_deep_cause_of all stop }
{
    match stop {
        Stop::Left(left) => Cause::NoUnit(all - left),
        Stop::NoMemory => Cause::NoMemory,
    }
}

/// Where only the lexemes up to and with `deep`, the first that is too deep, were read.
fn deep_cause(stop: Stop, deep: usize) -> Cause
    requires { IsWithin (deep + 1) stop }
    ensures { result ≡ causes.deep_cause_of deep stop }
{
    match stop {
        Stop::Left(left) => if left > 0 {
            Cause::NoUnit(deep - (left - 1))
        } else {
            Cause::TooDeep(deep)
        },
        Stop::NoMemory => Cause::NoMemory,
    }
}

/// The unit that the lexemes are, or why they are none. They stop at the first place such that no unit begins with them up
/// to and with it; one of nesting 65 counts where it stands before that place.
pub fn unit_of(alloc: Global, lexemes: &[Lexeme<'_>]) -> Result<Unit, Cause>
    ensures ok { IfOk result (law.UnitNoneDeep (lexemes_of lexemes.now)) }
    ensures err { IfErr result (r.HasCause (lexemes_of lexemes.now)) }
{
    match first_deep(lexemes, 0) {
        None => match whole(alloc, lexemes) {
            Ok(unit) => Ok(unit),
            Err(stop) => Err(none_deep_cause(stop, lexemes.len())),
        },
        Some(deep) => match whole(alloc, &lexemes[..deep + 1]) {
            Ok(_) => Err(Cause::TooDeep(deep)),
            Err(stop) => Err(deep_cause(stop, deep)),
        },
    }
}

/// The refusal of a text at a place among its lexemes, or want of memory.
fn refused(alloc: Global, text: &str, lexemes: &[Lexeme<'_>], code: Code, place: usize) -> Denied
    requires fits { length text.now < u32.MAX }
    requires within { place ≤ length lexemes.now }
    requires plain { is_e17 code ≡ false }
    requires refused { no_unit.IsRefusedAt code (lexemes_of lexemes.now) place }
    ensures { OnRefused result (r.Says text.now (lexemes_of lexemes.now)) }
{
    match declaration_of(alloc, lexemes, place) {
        Ok(declaration) => {
            let line = line_at(text, lexemes, place);
            Denied::Refused(Refusal {
                code,
                declaration,
                line,
                kind: None,
            })
        }
        Err(_) => Denied::NoMemory,
    }
}

fn denied(alloc: Global, text: &str, lexemes: &[Lexeme<'_>], cause: Cause) -> Denied
    requires fits { length text.now < u32.MAX }
    requires cause { r.HasCause (lexemes_of lexemes.now) cause }
    ensures { OnRefused result (r.Says text.now (lexemes_of lexemes.now)) }
{
    match cause {
        Cause::NoUnit(place) => refused(alloc, text, lexemes, Code::E02, place),
        Cause::TooDeep(place) => refused(alloc, text, lexemes, Code::E03, place),
        Cause::NoMemory => Denied::NoMemory,
    }
}

/// The unit that a text is, from its tokens. It is refused with `Code::E03` where a token has nesting 65 and a unit begins
/// with the tokens up to and with it; else with `Code::E02` at the first token such that no unit begins with the tokens up
/// to and with it, or at the text's end where more are wanted. Marks count for the token behind them.
pub fn parse(alloc: Global, text: &str, tokens: &[Token<'_>]) -> Result<Unit, Denied>
    requires fits { length text.now < u32.MAX }
    requires tokens { Tokens text.now (map token_view tokens.now) }
    ensures ok { IfOk result (reads.Reads text.now) }
    ensures none_deep { IfOk result (law.UnitNoneDeep (reads.lexemes (map token_view tokens.now))) }
    ensures refused { IfErr result (λ e. OnRefused e (r.Says text.now (reads.lexemes (map token_view tokens.now)))) }
{
    let lexemes = lexemes(alloc, tokens)?;
    match unit_of(alloc, &lexemes) {
        Ok(unit) => Ok(unit),
        Err(cause) => Err(denied(alloc, text, &lexemes, cause)),
    }
}
