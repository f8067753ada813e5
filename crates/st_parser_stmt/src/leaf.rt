//! The rules that hold no statement.

ghost use Rattle.std.specs.Prelude.{◌≡◌, ◌≢◌, ◌<◌, length, IfOk, IfErr, true, false, Some};
ghost use Rattle.st_tree.specs.Grammar as g;
ghost use Rattle.st_tree.specs.Grammar.{◌⋆◌};
ghost use Rattle.st_tree.specs.declared.terminal.Terminal.TheVariants as x;
ghost use Rattle.st_tree.specs.Expression.{expression_of, arguments_of, place_of};
ghost use Rattle.st_parser_expr.specs.Private.Promises as e;
ghost use Rattle.st_parser_stmt.specs.Private.Promises as m;
ghost use Rattle.st_parser_stmt.specs.Private.Promises.{Parses, Fails, same};

use crate::number::is_same;
use plc_text::{Items, Text};
use st_parser_expr as expr;
use st_parser_expr::{Cursor, Held, Stop};
use st_tree::{Argument, Expr, Literal, Place, Terminal};
use std::alloc::Global;

/// Whether this terminal comes next.
pub fn is_next(tokens: &Cursor<'_, '_>, terminal: Terminal) -> bool
    ensures yes { result ≡ true → e.next_terminal tokens.now ≡ Some terminal }
    ensures not { result ≡ false → e.next_terminal tokens.now ≢ Some terminal }
{
    match tokens.peek() {
        Some(next) => is_same(next, terminal),
        None => false,
    }
}

pub fn sign(tokens: &mut Cursor<'_, '_>, terminal: Terminal) -> Result<(), Stop>
    ensures ok { IfOk result (λ _. m.ReadsSign (g.sign terminal) terminal tokens.old tokens.new) }
    ensures shorter { IfOk result (λ _. length tokens.new < length tokens.old) }
    ensures err { IfErr result (m.SignFails terminal tokens.old) }
{
    if is_next(tokens, terminal) {
        tokens.bump();
        Ok(())
    } else {
        Err(Stop::Left(tokens.left()))
    }
}

/// Takes the terminal where it comes next.
pub fn eat(tokens: &mut Cursor<'_, '_>, terminal: Terminal) -> bool
    ensures yes { result ≡ true → g.sign terminal tokens.old tokens.new }
    ensures no { result ≡ false → tokens.new ≡ tokens.old }
    ensures not { result ≡ false → e.next_terminal tokens.old ≢ Some terminal }
{
    if is_next(tokens, terminal) {
        tokens.bump();
        true
    } else {
        false
    }
}

pub fn word(alloc: Global, tokens: &mut Cursor<'_, '_>) -> Result<Text, Stop>
    ensures ok { IfOk result (λ n. Parses (g.word n) m.for_word same tokens.old tokens.new) }
    ensures err { IfErr result (Fails m.for_word tokens.old) }
{
    if is_next(tokens, Terminal::Word) {
        Ok(tokens.take_text(alloc)?)
    } else {
        Err(Stop::Left(tokens.left()))
    }
}

pub fn expression(alloc: Global, tokens: &mut Cursor<'_, '_>) -> Result<Expr<u32>, Stop>
    ensures ok { IfOk result (λ v. Parses (g.expression (expression_of v) 0) m.for_expression same tokens.old tokens.new) }
    ensures err { IfErr result (Fails m.for_expression tokens.old) }
{
    let value = expr::chain(alloc, tokens, 0)?;
    Ok(value)
}

/// An expression and this terminal.
pub fn expression_then(
    alloc: Global,
    tokens: &mut Cursor<'_, '_>,
    terminal: Terminal,
) -> Result<Held<Expr<u32>>, Stop>
    ensures ok { IfOk result (λ v. m.ReadsThen (g.expression (expression_of v) 0 ⋆ g.sign terminal) terminal tokens.old tokens.new) }
    ensures err { IfErr result (m.ThenFails terminal tokens.old) }
{
    let value = expression(alloc, tokens)?;
    let held = Held::new(value);
    sign(tokens, terminal)?;
    Ok(held)
}

pub fn arguments(alloc: Global, tokens: &mut Cursor<'_, '_>) -> Result<Items<Argument<u32>>, Stop>
    ensures ok { IfOk result (λ xs. Parses (g.arguments (arguments_of xs) ⋆ g.sign x.Close) m.for_arguments same tokens.old tokens.new) }
    ensures err { IfErr result (Fails m.for_arguments tokens.old) }
{
    let found = expr::arguments(alloc, tokens)?;
    Ok(found)
}

pub fn literal(alloc: Global, tokens: &mut Cursor<'_, '_>) -> Result<Literal, Stop>
    ensures ok { IfOk result (λ v. Parses (g.literal v) m.for_literal same tokens.old tokens.new) }
    ensures err { IfErr result (Fails m.for_literal tokens.old) }
{
    let value = expr::literal(alloc, tokens)?;
    Ok(value)
}

/// The place that a statement begins with.
pub fn place(alloc: Global, tokens: &mut Cursor<'_, '_>) -> Result<Place<u32>, Stop>
    requires { e.is_root (e.next_terminal tokens.old) ≡ true }
    ensures ok { IfOk result (λ p. Parses (g.root (place_of p).0 ⋆ g.selectors (place_of p).1) m.for_statement m.for_placed tokens.old tokens.new) }
    ensures err { IfErr result (Fails m.for_statement tokens.old) }
{
    let root = expr::root(alloc, tokens)?;
    let selectors = expr::selectors(alloc, tokens)?;
    Ok(Place { root, selectors })
}

/// Whether a statement may begin with this terminal.
fn starts_statement(terminal: Terminal) -> bool
    ensures { result ≡ m.starts_statement (Some terminal) }
{
    matches!(
        terminal,
        Terminal::Semicolon
            | Terminal::Word
            | Terminal::This
            | Terminal::Super
            | Terminal::Exit
            | Terminal::Continue
            | Terminal::Return
            | Terminal::If
            | Terminal::Case
            | Terminal::For
            | Terminal::While
            | Terminal::Repeat
    )
}

/// Whether a statement may begin with what comes next.
pub fn is_statement(tokens: &Cursor<'_, '_>) -> bool
    ensures { result ≡ m.starts_statement (e.next_terminal tokens.now) }
{
    match tokens.peek() {
        Some(next) => starts_statement(next),
        None => false,
    }
}
