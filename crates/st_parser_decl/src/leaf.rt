//! Signs, names and texts, and what the rules of statements read.

ghost use Rattle.std.specs.Prelude.{◌≡◌, IfOk, IfErr, true};
ghost use Rattle.st_tree.specs.Initial.{initial_of};
ghost use Rattle.st_tree.specs.Expression.{expression_of};
ghost use Rattle.st_tree.specs.Grammar as g;
ghost use Rattle.st_tree.specs.Declarations as d;
ghost use Rattle.st_parser_decl.specs.Private.Form as f;
ghost use Rattle.st_parser_decl.specs.Private.Rules as w;
ghost use Rattle.st_parser_decl.specs.Private.Promises.{Parses, Fails};

use plc_text::{Items, Text};
use st_parser_expr::{Cursor, Stop};
use st_parser_stmt::{eat, initial_value, is_next};
use st_tree::{Expr, Init, Name, Terminal, Used};
use std::alloc::Global;

pub fn sign(tokens: &mut Cursor<'_, '_>, terminal: Terminal) -> Result<(), Stop>
    ensures ok { IfOk result (λ _. Parses (g.sign terminal) (f.one terminal) tokens.old tokens.new) }
    ensures err { IfErr result (Fails (f.one terminal) tokens.old) }
{
    if is_next(tokens, terminal) {
        tokens.bump();
        Ok(())
    } else {
        Err(Stop::Left(tokens.left()))
    }
}

/// Takes `;` where it comes next.
pub fn may_semicolon(tokens: &mut Cursor<'_, '_>)
    ensures { Parses (g.optional Terminal.Semicolon) (f.may Terminal.Semicolon) tokens.old tokens.new }
{
    let _eaten = eat(tokens, Terminal::Semicolon);
}

/// The text of this terminal, in upper case.
pub fn text(alloc: Global, tokens: &mut Cursor<'_, '_>, terminal: Terminal) -> Result<Text, Stop>
    ensures ok { IfOk result (λ n. Parses (g.spelled terminal n) (f.one terminal) tokens.old tokens.new) }
    ensures err { IfErr result (Fails (f.one terminal) tokens.old) }
{
    if is_next(tokens, terminal) {
        Ok(tokens.take_text(alloc)?)
    } else {
        Err(Stop::Left(tokens.left()))
    }
}

/// A name that is declared.
pub fn name(alloc: Global, tokens: &mut Cursor<'_, '_>) -> Result<Name, Stop>
    ensures ok { IfOk result (λ n. Parses (g.name n) w.word tokens.old tokens.new) }
    ensures err { IfErr result (Fails w.word tokens.old) }
{
    let line = tokens.line();
    let text = text(alloc, tokens, Terminal::Word)?;
    Ok(Name { text, line })
}

/// Names with commas between them.
pub fn names(alloc: Global, tokens: &mut Cursor<'_, '_>) -> Result<Items<Name>, Stop>
    ensures ok { IfOk result (λ ns. Parses (d.names ns) w.names tokens.old tokens.new) }
    ensures err { IfErr result (Fails w.names tokens.old) }
{
    let mut found = Items::new(alloc);
    let first = name(alloc, tokens)?;
    found.push(first)?;
    while eat(tokens, Terminal::Comma) {
        let one = name(alloc, tokens)?;
        found.push(one)?;
    }
    Ok(found)
}

/// A name that is used.
pub fn used(alloc: Global, tokens: &mut Cursor<'_, '_>) -> Result<Used<u32>, Stop>
    ensures ok { IfOk result (λ u. Parses (d.used u) w.word tokens.old tokens.new) }
    ensures err { IfErr result (Fails w.word tokens.old) }
{
    let note = tokens.line();
    let text = text(alloc, tokens, Terminal::Word)?;
    Ok(Used { note, text })
}

/// Names that are used, with commas between them.
pub fn used_names(alloc: Global, tokens: &mut Cursor<'_, '_>) -> Result<Items<Used<u32>>, Stop>
    ensures ok { IfOk result (λ us. Parses (d.used_names us) w.names tokens.old tokens.new) }
    ensures err { IfErr result (Fails w.names tokens.old) }
{
    let mut found = Items::new(alloc);
    let first = used(alloc, tokens)?;
    found.push(first)?;
    while eat(tokens, Terminal::Comma) {
        let one = used(alloc, tokens)?;
        found.push(one)?;
    }
    Ok(found)
}

pub fn expression(alloc: Global, tokens: &mut Cursor<'_, '_>) -> Result<Expr<u32>, Stop>
    ensures ok { IfOk result (λ v. Parses (g.expression (expression_of v) 0) w.expression tokens.old tokens.new) }
    ensures err { IfErr result (Fails w.expression tokens.old) }
{
    let value = st_parser_stmt::expression(alloc, tokens)?;
    Ok(value)
}

/// An initial value.
pub fn value(alloc: Global, tokens: &mut Cursor<'_, '_>) -> Result<Init<u32>, Stop>
    ensures ok { IfOk result (λ i. Parses (g.initial (initial_of i)) w.value tokens.old tokens.new) }
    ensures err { IfErr result (Fails w.value tokens.old) }
{
    let value = initial_value(alloc, tokens)?;
    Ok(value)
}
