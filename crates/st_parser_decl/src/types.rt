//! Types as they are written, and the initial values behind them.

ghost use Rattle.std.specs.Prelude.{◌≡◌, IfOk, IfErr};
ghost use Rattle.st_tree.specs.declared.terminal.Terminal.TheVariants as x;
ghost use Rattle.st_tree.specs.Grammar as g;
ghost use Rattle.st_tree.specs.Declarations as d;
ghost use Rattle.st_parser_decl.specs.Private.Form as f;
ghost use Rattle.st_parser_decl.specs.Private.Rules as w;
ghost use Rattle.st_parser_decl.specs.Private.Promises.{Parses, Fails};

use crate::leaf::{expression, sign, text, used, value};
use plc_text::Items;
use st_parser_expr::{Cursor, Stop};
use st_parser_stmt::{Held, eat, is_next};
use st_tree::{ArraySpec, Bounds, Init, SimpleSpec, Terminal, TypeSpec};
use std::alloc::Global;

fn range(alloc: Global, tokens: &mut Cursor<'_, '_>) -> Result<Bounds<u32>, Stop>
    ensures ok { IfOk result (λ b. Parses (g.range b) w.range tokens.old tokens.new) }
    ensures err { IfErr result (Fails w.range tokens.old) }
{
    let low = expression(alloc, tokens)?;
    let low = Held::new(low);
    sign(tokens, Terminal::Range)?;
    let high = expression(alloc, tokens)?;
    let low = low.into_inner();
    Ok(Bounds { low, high })
}

/// The dimensions of an array, with commas between them.
fn ranges(alloc: Global, tokens: &mut Cursor<'_, '_>) -> Result<Items<Bounds<u32>>, Stop>
    ensures ok { IfOk result (λ bs. Parses (g.ranges bs) w.ranges tokens.old tokens.new) }
    ensures err { IfErr result (Fails w.ranges tokens.old) }
{
    let mut found = Items::new(alloc);
    let first = range(alloc, tokens)?;
    found.push(first)?;
    while eat(tokens, Terminal::Comma) {
        let one = range(alloc, tokens)?;
        found.push(one)?;
    }
    Ok(found)
}

/// `ARRAY [..] OF`
fn array_spec(alloc: Global, tokens: &mut Cursor<'_, '_>) -> Result<ArraySpec<u32>, Stop>
    ensures ok { IfOk result (λ a. Parses (g.array_spec a) w.array_spec tokens.old tokens.new) }
    ensures err { IfErr result (Fails w.array_spec tokens.old) }
{
    let note = tokens.line();
    sign(tokens, Terminal::Array)?;
    sign(tokens, Terminal::OpenBracket)?;
    let bounds = ranges(alloc, tokens)?;
    sign(tokens, Terminal::CloseBracket)?;
    sign(tokens, Terminal::Of)?;
    Ok(ArraySpec { note, bounds })
}

/// `ARRAY [..] OF` as often as it comes.
fn arrays(alloc: Global, tokens: &mut Cursor<'_, '_>) -> Result<Items<ArraySpec<u32>>, Stop>
    ensures ok { IfOk result (λ found. Parses (g.each g.array_spec found) (f.several w.array_spec) tokens.old tokens.new) }
    ensures err { IfErr result (Fails (f.several w.array_spec) tokens.old) }
{
    let mut found = Items::new(alloc);
    while is_next(tokens, Terminal::Array) {
        let one = array_spec(alloc, tokens)?;
        found.push(one)?;
    }
    Ok(found)
}

/// `REF_TO name`
fn reference(alloc: Global, tokens: &mut Cursor<'_, '_>) -> Result<SimpleSpec<u32>, Stop>
    ensures ok { IfOk result (λ s. Parses (g.simple_spec s) w.reference tokens.old tokens.new) }
    ensures err { IfErr result (Fails w.reference tokens.old) }
{
    let note = tokens.line();
    sign(tokens, Terminal::RefTo)?;
    let of = used(alloc, tokens)?;
    Ok(SimpleSpec::Reference(note, of.note, of.text))
}

fn simple_spec(alloc: Global, tokens: &mut Cursor<'_, '_>) -> Result<SimpleSpec<u32>, Stop>
    ensures ok { IfOk result (λ s. Parses (g.simple_spec s) w.simple_spec tokens.old tokens.new) }
    ensures err { IfErr result (Fails w.simple_spec tokens.old) }
{
    let note = tokens.line();
    match tokens.peek() {
        Some(Terminal::Kind(kind)) => {
            tokens.bump();
            Ok(SimpleSpec::Elementary(note, kind))
        }
        Some(Terminal::Word) => {
            let text = text(alloc, tokens, Terminal::Word)?;
            Ok(SimpleSpec::Named(note, text))
        }
        _ => {
            let spec = reference(alloc, tokens)?;
            Ok(spec)
        }
    }
}

pub fn type_spec(alloc: Global, tokens: &mut Cursor<'_, '_>) -> Result<TypeSpec<u32>, Stop>
    ensures ok { IfOk result (λ s. Parses (g.type_spec s) w.type_spec tokens.old tokens.new) }
    ensures err { IfErr result (Fails w.type_spec tokens.old) }
{
    let arrays = arrays(alloc, tokens)?;
    let element = simple_spec(alloc, tokens)?;
    Ok(TypeSpec { arrays, element })
}

/// The type of a result, where there is one.
pub fn result_type(
    alloc: Global,
    tokens: &mut Cursor<'_, '_>,
) -> Result<Option<TypeSpec<u32>>, Stop>
    ensures ok { IfOk result (λ s. Parses (d.result s) w.result tokens.old tokens.new) }
    ensures err { IfErr result (Fails w.result tokens.old) }
{
    if !eat(tokens, Terminal::Colon) {
        return Ok(None);
    }
    let spec = type_spec(alloc, tokens)?;
    Ok(Some(spec))
}

/// The initial value of variables, where there is one.
pub fn start_value(alloc: Global, tokens: &mut Cursor<'_, '_>) -> Result<Option<Init<u32>>, Stop>
    ensures ok { IfOk result (λ i. Parses (d.start_value i) w.start_value tokens.old tokens.new) }
    ensures err { IfErr result (Fails w.start_value tokens.old) }
{
    if !eat(tokens, Terminal::Assign) {
        return Ok(None);
    }
    let value = value(alloc, tokens)?;
    Ok(Some(value))
}
