//! Functions and programs (IEC 61131-3:2013, 6.6.2 and 6.6.6).

ghost use Rattle.std.specs.Prelude.{◌≡◌, IfOk, IfErr};
ghost use Rattle.st_tree.specs.declared.terminal.Terminal.TheVariants as x;
ghost use Rattle.st_tree.specs.Declarations as d;
ghost use Rattle.st_parser_decl.specs.Private.Rules as w;
ghost use Rattle.st_parser_decl.specs.Private.Promises.{Parses, Fails};

use crate::leaf::{may_semicolon, name, sign};
use crate::section::sections;
use crate::types::result_type;
use st_parser_expr::{Cursor, Stop};
use st_parser_stmt::{Held, body_until};
use st_tree::{FunctionDecl, ProgramDecl, Terminal};
use std::alloc::Global;

pub fn function(alloc: Global, tokens: &mut Cursor<'_, '_>) -> Result<FunctionDecl<u32>, Stop>
    ensures ok { IfOk result (λ f. Parses (d.function f) w.function tokens.old tokens.new) }
    ensures err { IfErr result (Fails w.function tokens.old) }
{
    let line = tokens.line();
    sign(tokens, Terminal::Function)?;
    let name = name(alloc, tokens)?;
    let result = result_type(alloc, tokens)?;
    let result = Held::new(result);
    may_semicolon(tokens);
    let sections = sections(alloc, tokens)?;
    let body = body_until(alloc, tokens, Terminal::EndFunction)?;
    let result = result.into_inner();
    Ok(FunctionDecl {
        line,
        name,
        result,
        sections,
        body,
    })
}

pub fn program(alloc: Global, tokens: &mut Cursor<'_, '_>) -> Result<ProgramDecl<u32>, Stop>
    ensures ok { IfOk result (λ p. Parses (d.program p) w.program tokens.old tokens.new) }
    ensures err { IfErr result (Fails w.program tokens.old) }
{
    let line = tokens.line();
    sign(tokens, Terminal::Program)?;
    let name = name(alloc, tokens)?;
    let sections = sections(alloc, tokens)?;
    let body = body_until(alloc, tokens, Terminal::EndProgram)?;
    Ok(ProgramDecl {
        line,
        name,
        sections,
        body,
    })
}
