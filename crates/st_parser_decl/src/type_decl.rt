//! Declarations of types (IEC 61131-3:2013, 6.4.4).

ghost use Rattle.std.specs.Prelude.{◌≡◌, IfOk, IfErr};
ghost use Rattle.st_tree.specs.declared.terminal.Terminal.TheVariants as x;
ghost use Rattle.st_tree.specs.Grammar as g;
ghost use Rattle.st_tree.specs.Declarations as d;
ghost use Rattle.st_parser_decl.specs.Private.Form as f;
ghost use Rattle.st_parser_decl.specs.Private.Rules as w;
ghost use Rattle.st_parser_decl.specs.Private.Promises.{Parses, Fails};

use crate::leaf::{may_semicolon, name, names, sign};
use crate::types::{start_value, type_spec};
use plc_text::Items;
use st_parser_expr::{Cursor, Stop};
use st_parser_stmt::{Held, is_next};
use st_tree::{Decl, FieldGroup, Terminal, TypeBody, TypeDecl};
use std::alloc::Global;

/// Fields of a structure that share their type.
fn field_group(alloc: Global, tokens: &mut Cursor<'_, '_>) -> Result<FieldGroup<u32>, Stop>
    ensures ok { IfOk result (λ fs. Parses (d.field_group fs) w.field_group tokens.old tokens.new) }
    ensures err { IfErr result (Fails w.field_group tokens.old) }
{
    let names = names(alloc, tokens)?;
    sign(tokens, Terminal::Colon)?;
    let kind = type_spec(alloc, tokens)?;
    let kind = Held::new(kind);
    let initial = start_value(alloc, tokens)?;
    let initial = Held::new(initial);
    sign(tokens, Terminal::Semicolon)?;
    let kind = kind.into_inner();
    let initial = initial.into_inner();
    Ok(FieldGroup {
        names,
        kind,
        initial,
    })
}

/// Fields as often as they come.
fn field_groups(alloc: Global, tokens: &mut Cursor<'_, '_>) -> Result<Items<FieldGroup<u32>>, Stop>
    ensures ok { IfOk result (λ found. Parses (g.each d.field_group found) (f.several w.field_group) tokens.old tokens.new) }
    ensures err { IfErr result (Fails (f.several w.field_group) tokens.old) }
{
    let mut found = Items::new(alloc);
    while is_next(tokens, Terminal::Word) {
        let one = field_group(alloc, tokens)?;
        found.push(one)?;
    }
    Ok(found)
}

/// `(name, ..);`
fn enumeration(alloc: Global, tokens: &mut Cursor<'_, '_>) -> Result<TypeBody<u32>, Stop>
    ensures ok { IfOk result (λ b. Parses (d.type_body b) w.enumeration tokens.old tokens.new) }
    ensures err { IfErr result (Fails w.enumeration tokens.old) }
{
    sign(tokens, Terminal::Open)?;
    let names = names(alloc, tokens)?;
    sign(tokens, Terminal::Close)?;
    sign(tokens, Terminal::Semicolon)?;
    Ok(TypeBody::Enumeration(names))
}

/// `STRUCT .. END_STRUCT`
fn structure(alloc: Global, tokens: &mut Cursor<'_, '_>) -> Result<TypeBody<u32>, Stop>
    ensures ok { IfOk result (λ b. Parses (d.type_body b) w.structure tokens.old tokens.new) }
    ensures err { IfErr result (Fails w.structure tokens.old) }
{
    sign(tokens, Terminal::Struct)?;
    let fields = field_groups(alloc, tokens)?;
    sign(tokens, Terminal::EndStruct)?;
    may_semicolon(tokens);
    Ok(TypeBody::Structure(fields))
}

/// Another name for a type.
fn alias(alloc: Global, tokens: &mut Cursor<'_, '_>) -> Result<TypeBody<u32>, Stop>
    ensures ok { IfOk result (λ b. Parses (d.type_body b) w.alias tokens.old tokens.new) }
    ensures err { IfErr result (Fails w.alias tokens.old) }
{
    let spec = type_spec(alloc, tokens)?;
    sign(tokens, Terminal::Semicolon)?;
    Ok(TypeBody::Alias(spec))
}

fn type_body(alloc: Global, tokens: &mut Cursor<'_, '_>) -> Result<TypeBody<u32>, Stop>
    ensures ok { IfOk result (λ b. Parses (d.type_body b) w.type_body tokens.old tokens.new) }
    ensures err { IfErr result (Fails w.type_body tokens.old) }
{
    if is_next(tokens, Terminal::Open) {
        let names = enumeration(alloc, tokens)?;
        return Ok(names);
    }
    if is_next(tokens, Terminal::Struct) {
        let fields = structure(alloc, tokens)?;
        return Ok(fields);
    }
    let other = alias(alloc, tokens)?;
    Ok(other)
}

fn type_decl(alloc: Global, tokens: &mut Cursor<'_, '_>) -> Result<TypeDecl<u32>, Stop>
    ensures ok { IfOk result (λ t. Parses (d.type_decl t) w.type_decl tokens.old tokens.new) }
    ensures err { IfErr result (Fails w.type_decl tokens.old) }
{
    let name = name(alloc, tokens)?;
    sign(tokens, Terminal::Colon)?;
    let body = type_body(alloc, tokens)?;
    Ok(TypeDecl { name, body })
}

/// Types as often as they are declared.
fn type_decls(alloc: Global, tokens: &mut Cursor<'_, '_>) -> Result<Items<TypeDecl<u32>>, Stop>
    ensures ok { IfOk result (λ found. Parses (g.each d.type_decl found) (f.several w.type_decl) tokens.old tokens.new) }
    ensures err { IfErr result (Fails (f.several w.type_decl) tokens.old) }
{
    let mut found = Items::new(alloc);
    while is_next(tokens, Terminal::Word) {
        let one = type_decl(alloc, tokens)?;
        found.push(one)?;
    }
    Ok(found)
}

/// `TYPE .. END_TYPE`
pub fn types(alloc: Global, tokens: &mut Cursor<'_, '_>) -> Result<Decl<u32>, Stop>
    ensures ok { IfOk result (λ t. Parses (d.declaration t) w.types tokens.old tokens.new) }
    ensures err { IfErr result (Fails w.types tokens.old) }
{
    let line = tokens.line();
    sign(tokens, Terminal::Type)?;
    let decls = type_decls(alloc, tokens)?;
    sign(tokens, Terminal::EndType)?;
    Ok(Decl::Types(line, decls))
}
