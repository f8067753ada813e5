//! Declarations, and units of them (IEC 61131-3:2013, annex A).

ghost use Rattle.std.specs.Prelude.{◌≡◌, IfOk, IfErr};
ghost use Rattle.st_tree.specs.Grammar as g;
ghost use Rattle.st_tree.specs.Declarations as d;
ghost use Rattle.st_parser_decl.specs.Private.Rules as w;
ghost use Rattle.st_parser_decl.specs.Private.Promises.{Parses, Fails, FailsInside, Perhaps};

use crate::class::{block, class, interface};
use crate::configuration::configuration;
use crate::routine::{function, program};
use crate::section::globals;
use crate::type_decl::types;
use plc_text::Items;
use st_parser_expr::{Cursor, Stop};
use st_tree::{Decl, Terminal};
use std::alloc::Global;

/// A declaration, where one begins.
fn declaration(alloc: Global, tokens: &mut Cursor<'_, '_>) -> Result<Option<Decl<u32>>, Stop>
    ensures ok { IfOk result (λ o. Perhaps d.declaration w.declaration o tokens.old tokens.new) }
    ensures err { IfErr result (FailsInside w.declaration tokens.old) }
{
    match tokens.peek() {
        Some(Terminal::Type) => {
            let decl = types(alloc, tokens)?;
            Ok(Some(decl))
        }
        Some(Terminal::VarGlobal) => {
            let decl = globals(alloc, tokens)?;
            Ok(Some(Decl::Globals(decl)))
        }
        Some(Terminal::Interface) => {
            let decl = interface(alloc, tokens)?;
            Ok(Some(Decl::Interface(decl)))
        }
        Some(Terminal::Class) => {
            let decl = class(alloc, tokens)?;
            Ok(Some(Decl::Class(decl)))
        }
        Some(Terminal::FunctionBlock) => {
            let decl = block(alloc, tokens)?;
            Ok(Some(Decl::Class(decl)))
        }
        Some(Terminal::Function) => {
            let decl = function(alloc, tokens)?;
            Ok(Some(Decl::Function(decl)))
        }
        Some(Terminal::Program) => {
            let decl = program(alloc, tokens)?;
            Ok(Some(Decl::Program(decl)))
        }
        Some(Terminal::Configuration) => {
            let decl = configuration(alloc, tokens)?;
            Ok(Some(Decl::Configuration(decl)))
        }
        _ => Ok(None),
    }
}

/// Declarations as often as they come.
pub fn declarations(alloc: Global, tokens: &mut Cursor<'_, '_>) -> Result<Items<Decl<u32>>, Stop>
    ensures ok { IfOk result (λ found. Parses (g.each d.declaration found) w.unit tokens.old tokens.new) }
    ensures err { IfErr result (Fails w.unit tokens.old) }
{
    let mut found = Items::new(alloc);
    while let Some(one) = declaration(alloc, tokens)? {
        found.push(one)?;
    }
    Ok(found)
}
