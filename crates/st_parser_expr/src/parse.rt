//! Expressions whose brackets and signs stand no deeper than 64.

ghost use Rattle.std.specs.Prelude.{◌≡◌, ◌≤◌, ◌+◌, ◌-◌, ◌<◌, length, drop, take, IfOk, IfErr, IfSome, IfNone};
ghost use Rattle.st_tree.specs.Expression.{expression_of};
ghost use Rattle.st_parser_expr.specs.Parse.{Parsed};
ghost use Rattle.st_tree.specs.Nesting as nesting;
ghost use Rattle.st_parser_expr.specs.Parse as n;
ghost use Rattle.st_parser_expr.specs.Private.Faults as faults;
ghost use Rattle.st_parser_expr.specs.Private.Promises as m;
ghost use Rattle.st_lexer.specs.Lexeme.{lexemes_of};

use crate::cursor::Cursor;
use crate::depth::{Depth, behind};
use crate::expr::chain;
use crate::stop::{Fault, ParseError, Stop};
use st_lexer::Lexeme;
use st_tree::Expr;
use std::alloc::Global;

/// The longest expression from `at` on, and where it ends, however deep it is.
fn longest(alloc: Global, lexemes: &[Lexeme<'_>], at: usize) -> Result<(Expr<u32>, usize), Fault>
    requires { at ≤ length lexemes.now }
    ensures ok { IfOk result (λ y. Parsed (lexemes_of (drop at lexemes.now)) at y.1 (expression_of y.0)) }
    ensures err { IfErr result (faults.HasFault (lexemes_of (drop at lexemes.now)) at) }
{
    let mut cursor = Cursor::new(lexemes, at);
    match chain(alloc, &mut cursor, 0) {
        Ok(e) => Ok((e, lexemes.len() - cursor.left())),
        Err(stop) => Err(fault(stop, lexemes.len())),
    }
}

fn fault(stop: Stop, all: usize) -> Fault
    requires { m.IsWithin all stop }
    ensures { result ≡ m.fault_of all stop }
{
    match stop {
        Stop::Left(left) => Fault::Syntax(all - left),
        Stop::NoMemory => Fault::NoMemory,
    }
}

/// The first lexeme from `at` on of nesting 65.
pub fn first_deep(lexemes: &[Lexeme<'_>], at: usize) -> Option<usize>
    requires { at ≤ length lexemes.now }
    ensures found { IfSome result (λ q. n.DeepAt (lexemes_of (drop at lexemes.now)) at q) }
    ensures none { IfNone result (nesting.NoneDeep (lexemes_of (drop at lexemes.now)) (length lexemes.now - at)) }
{
    let mut cursor = Cursor::new(lexemes, at);
    let mut depth = Depth {
        brackets: 0,
        signs: 0,
        ended: false,
    };
    while let Some(terminal) = cursor.peek() {
        if depth.brackets + depth.signs == 65 {
            return Some(lexemes.len() - cursor.left());
        }
        depth = behind(depth, terminal);
        cursor.bump();
    }
    None
}

/// The longest expression from `at` on, and where it ends. The lexemes stop at the first place such that no expression
/// begins with them up to and with it. `TooDeep` comes exactly where one of nesting 65 stands before that place.
pub fn parse_expr(
    alloc: Global,
    lexemes: &[Lexeme<'_>],
    at: usize,
) -> Result<(Expr<u32>, usize), ParseError>
    requires { at ≤ length lexemes.now }
    ensures ok { IfOk result (λ y. n.ParsedNoneDeep (lexemes_of (drop at lexemes.now)) at y.1 (expression_of y.0)) }
    ensures err { IfErr result (n.HasCause (lexemes_of (drop at lexemes.now)) at) }
{
    match first_deep(lexemes, at) {
        None => match longest(alloc, lexemes, at) {
            Ok(y) => Ok(y),
            Err(e) => Err(error(e)),
        },
        Some(q) => match longest(alloc, &lexemes[..q + 1], at) {
            Ok((e, end)) => if end > q {
                Err(ParseError::TooDeep(q))
            } else {
                Ok((e, end))
            },
            Err(e) => Err(deep_error(e, q)),
        },
    }
}

fn error(e: Fault) -> ParseError
    ensures { result ≡ faults.error_of e }
{
    match e {
        Fault::Syntax(p) => ParseError::Syntax(p),
        Fault::NoMemory => ParseError::NoMemory,
    }
}

/// The error where only the lexemes up to and with `q` were read.
fn deep_error(e: Fault, q: usize) -> ParseError
    ensures { result ≡ faults.deep_error_of e q }
{
    match e {
        Fault::Syntax(p) => if p > q {
            ParseError::TooDeep(q)
        } else {
            ParseError::Syntax(p)
        },
        Fault::NoMemory => ParseError::NoMemory,
    }
}
