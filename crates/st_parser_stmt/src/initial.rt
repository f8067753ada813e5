//! Initial values, by one function for each rule.

ghost use Rattle.std.specs.Prelude.{◌≡◌, IfOk, IfErr, true, Some};
ghost use Rattle.st_tree.specs.declared.terminal.Terminal.TheVariants as x;
ghost use Rattle.st_tree.specs.Grammar as g;
ghost use Rattle.st_tree.specs.Initial.{initial_of, part_of};
ghost use Rattle.st_parser_expr.specs.Private.Promises as e;
ghost use Rattle.st_parser_stmt.specs.Private.Promises as m;
ghost use Rattle.st_parser_stmt.specs.Private.Promises.{Parses, Fails, same};

use crate::leaf::{eat, expression, is_next, sign, word};
use plc_text::Items;
use st_parser_expr::{Cursor, Held, Stop};
use st_tree::{FieldInit, Init, Part, Terminal};
use std::alloc::Global;

/// Whether a list of fields comes next, and no expression.
fn is_fields(tokens: &Cursor<'_, '_>) -> bool
    ensures { result ≡ m.fields_at tokens.now }
{
    match tokens.peek() {
        Some(Terminal::Open) => match tokens.ahead(1) {
            Some(Terminal::Word) => match tokens.ahead(2) {
                Some(Terminal::Assign) => true,
                _ => false,
            },
            _ => false,
        },
        _ => false,
    }
}

/// Whether a repetition comes next, and no expression.
fn is_repetition(tokens: &Cursor<'_, '_>) -> bool
    ensures { result ≡ m.repetition_at tokens.now }
{
    match tokens.peek() {
        Some(Terminal::Int) => match tokens.ahead(1) {
            Some(Terminal::Open) => true,
            _ => false,
        },
        _ => false,
    }
}

#[cycle(initial)]
pub fn initial_value(alloc: Global, tokens: &mut Cursor<'_, '_>) -> Result<Init<u32>, Stop>
    ensures ok { IfOk result (λ i. Parses (g.initial (initial_of i)) m.for_initial same tokens.old tokens.new) }
    ensures err { IfErr result (Fails m.for_initial tokens.old) }
{
    if is_fields(tokens) {
        return fields(alloc, tokens);
    }
    if is_next(tokens, Terminal::OpenBracket) {
        return array(alloc, tokens);
    }
    let value = expression(alloc, tokens)?;
    Ok(Init::Value(value))
}

/// The list of a structure or an instance.
#[cycle(initial)]
fn fields(alloc: Global, tokens: &mut Cursor<'_, '_>) -> Result<Init<u32>, Stop>
    requires { m.fields_at tokens.old ≡ true }
    ensures ok { IfOk result (λ i. Parses (g.initial (initial_of i)) m.for_initial same tokens.old tokens.new) }
    ensures err { IfErr result (Fails m.for_initial tokens.old) }
{
    let line = tokens.line();
    tokens.bump();
    let mut found = Items::new(alloc);
    loop {
        let one = field(alloc, tokens)?;
        found.push(one)?;
        if eat(tokens, Terminal::Comma) {} else if eat(tokens, Terminal::Close) {
            return Ok(Init::Fields(line, found));
        } else {
            return Err(Stop::Left(tokens.left()));
        }
    }
}

#[cycle(initial)]
fn field(alloc: Global, tokens: &mut Cursor<'_, '_>) -> Result<FieldInit<u32>, Stop>
    ensures ok { IfOk result (λ f. Parses (m.Fielded f.note f.name (initial_of f.value)) m.for_field m.for_more_fields tokens.old tokens.new) }
    ensures err { IfErr result (Fails m.for_field tokens.old) }
{
    let note = tokens.line();
    let name = word(alloc, tokens)?;
    sign(tokens, Terminal::Assign)?;
    let value = initial_value(alloc, tokens)?;
    Ok(FieldInit { note, name, value })
}

/// The list of an array.
#[cycle(initial)]
fn array(alloc: Global, tokens: &mut Cursor<'_, '_>) -> Result<Init<u32>, Stop>
    requires { e.next_terminal tokens.old ≡ Some x.OpenBracket }
    ensures ok { IfOk result (λ i. Parses (g.initial (initial_of i)) m.for_initial same tokens.old tokens.new) }
    ensures err { IfErr result (Fails m.for_initial tokens.old) }
{
    let line = tokens.line();
    tokens.bump();
    let mut found = Items::new(alloc);
    loop {
        let one = part(alloc, tokens)?;
        found.push(one)?;
        if eat(tokens, Terminal::Comma) {} else if eat(tokens, Terminal::CloseBracket) {
            return Ok(Init::Array(line, found));
        } else {
            return Err(Stop::Left(tokens.left()));
        }
    }
}

#[cycle(initial)]
fn part(alloc: Global, tokens: &mut Cursor<'_, '_>) -> Result<Part<u32>, Stop>
    ensures ok { IfOk result (λ p. Parses (g.part (part_of p)) m.for_part same tokens.old tokens.new) }
    ensures err { IfErr result (Fails m.for_part tokens.old) }
{
    if is_repetition(tokens) {
        let line = tokens.line();
        let count = tokens.take_text(alloc)?;
        tokens.bump();
        let value = initial_value(alloc, tokens)?;
        let held = Held::new(value);
        sign(tokens, Terminal::Close)?;
        let value = held.into_inner();
        Ok(Part::Repeated(line, count, value))
    } else {
        let value = initial_value(alloc, tokens)?;
        Ok(Part::One(value))
    }
}
