//! The labels of a CASE.

ghost use Rattle.std.specs.Prelude.{◌≡◌, ◌∷◌, IfOk, IfErr, true, false, Some};
ghost use Rattle.st_tree.specs.declared.terminal.Terminal.TheVariants as x;
ghost use Rattle.st_tree.specs.Grammar as g;
ghost use Rattle.st_tree.specs.Grammar.{◌⋆◌};
ghost use Rattle.st_parser_expr.specs.Private.Promises as e;
ghost use Rattle.st_parser_stmt.specs.Private.Promises as m;
ghost use Rattle.st_parser_stmt.specs.Private.Promises.{Parses, Fails, same};

use crate::leaf::{eat, is_next, literal, sign, word};
use plc_text::Items;
use st_parser_expr::{Cursor, Stop};
use st_tree::{Label, LabelEnd, Terminal};
use std::alloc::Global;

/// Whether a label may begin with what comes next.
pub fn is_const(tokens: &Cursor<'_, '_>) -> bool
    ensures { result ≡ m.starts_const (e.next_terminal tokens.now) }
{
    match tokens.peek() {
        Some(Terminal::Int | Terminal::Minus | Terminal::Kind(_) | Terminal::Word) => true,
        _ => false,
    }
}

fn ends_const(terminal: Option<Terminal>) -> bool
    ensures { result ≡ m.ends_const terminal }
{
    match terminal {
        Some(Terminal::Range | Terminal::Comma | Terminal::Colon) => true,
        _ => false,
    }
}

fn is_word(terminal: Option<Terminal>) -> bool
    ensures { result ≡ m.is_word terminal }
{
    match terminal {
        Some(Terminal::Word) => true,
        _ => false,
    }
}

/// Whether a name makes a label with what comes behind it.
fn label_behind(first: Option<Terminal>, second: Option<Terminal>, third: Option<Terminal>) -> bool
    ensures { result ≡ m.label_behind first second third }
{
    match first {
        Some(Terminal::Hash) => true,
        Some(Terminal::Dot) => is_word(second) && ends_const(third),
        _ => ends_const(first),
    }
}

/// Whether a label comes next, and no statement.
pub fn is_label(tokens: &Cursor<'_, '_>) -> bool
    ensures { result ≡ m.label_at tokens.now }
{
    match tokens.peek() {
        Some(Terminal::Int | Terminal::Minus | Terminal::Kind(_)) => true,
        Some(Terminal::Word) => label_behind(tokens.ahead(1), tokens.ahead(2), tokens.ahead(3)),
        _ => false,
    }
}

/// A constant that begins with a name.
fn named(alloc: Global, tokens: &mut Cursor<'_, '_>) -> Result<LabelEnd<u32>, Stop>
    requires { e.next_terminal tokens.old ≡ Some x.Word }
    ensures ok { IfOk result (λ c. Parses (g.label_end c) m.for_const same tokens.old tokens.new) }
    ensures err { IfErr result (Fails m.for_const tokens.old) }
{
    let line = tokens.line();
    let text = tokens.take_text(alloc)?;
    if eat(tokens, Terminal::Hash) {
        let later = tokens.line();
        Ok(LabelEnd::Enumerator(line, text, later, word(alloc, tokens)?))
    } else if eat(tokens, Terminal::Dot) {
        let later = tokens.line();
        Ok(LabelEnd::Field(line, text, later, word(alloc, tokens)?))
    } else {
        Ok(LabelEnd::Name(line, text))
    }
}

#[tactic(auto, using(crate::proofs::Rules::const_fails))]
fn constant(alloc: Global, tokens: &mut Cursor<'_, '_>) -> Result<LabelEnd<u32>, Stop>
    ensures ok { IfOk result (λ c. Parses (g.label_end c) m.for_const same tokens.old tokens.new) }
    ensures err { IfErr result (Fails m.for_const tokens.old) }
{
    let line = tokens.line();
    match tokens.peek() {
        Some(Terminal::Int) => Ok(LabelEnd::Int(line, tokens.take_text(alloc)?)),
        Some(Terminal::Minus) => {
            tokens.bump();
            if is_next(tokens, Terminal::Int) {
                Ok(LabelEnd::Negative(line, tokens.take_text(alloc)?))
            } else {
                Err(Stop::Left(tokens.left()))
            }
        }
        Some(Terminal::Kind(kind)) => {
            tokens.bump();
            sign(tokens, Terminal::Hash)?;
            Ok(LabelEnd::Typed(line, kind, literal(alloc, tokens)?))
        }
        Some(Terminal::Word) => named(alloc, tokens),
        _ => Err(Stop::Left(tokens.left())),
    }
}

fn label(alloc: Global, tokens: &mut Cursor<'_, '_>) -> Result<Label<u32>, Stop>
    ensures ok { IfOk result (λ l. Parses (g.label l) m.for_label m.for_more_labels tokens.old tokens.new) }
    ensures err { IfErr result (Fails m.for_label tokens.old) }
{
    let first = constant(alloc, tokens)?;
    if eat(tokens, Terminal::Range) {
        let last = Some(constant(alloc, tokens)?);
        Ok(Label { first, last })
    } else {
        let last = None;
        Ok(Label { first, last })
    }
}

/// Labels with commas between them, and the colon behind them.
pub fn labels(alloc: Global, tokens: &mut Cursor<'_, '_>) -> Result<Items<Label<u32>>, Stop>
    ensures ok { IfOk result (λ ls. Parses (g.first_label ls ⋆ g.sign x.Colon) m.for_label m.for_case_body tokens.old tokens.new) }
    ensures err { IfErr result (Fails m.for_label tokens.old) }
{
    let mut found = Items::new(alloc);
    let first = label(alloc, tokens)?;
    found.push(first)?;
    while eat(tokens, Terminal::Comma) {
        let one = label(alloc, tokens)?;
        found.push(one)?;
    }
    if eat(tokens, Terminal::Colon) {
        Ok(found)
    } else {
        Err(Stop::Left(tokens.left()))
    }
}
