//! Interfaces, classes and function blocks (IEC 61131-3:2013, 6.6).

ghost use Rattle.std.specs.Prelude.{◌≡◌, IfOk, IfErr};
ghost use Rattle.st_tree.specs.declared.terminal.Terminal.TheVariants as x;
ghost use Rattle.st_tree.specs.Grammar as g;
ghost use Rattle.st_tree.specs.Declarations as d;
ghost use Rattle.st_parser_decl.specs.Private.Form as f;
ghost use Rattle.st_parser_decl.specs.Private.Rules as w;
ghost use Rattle.st_parser_decl.specs.Private.Promises.{Parses, Fails, FailsInside, Perhaps};
ghost use Rattle.st_parser_decl.specs.Private.Classes.{Headed};

use crate::leaf::{may_semicolon, name, sign, used, used_names};
use crate::section::{Words, modifiers, sections, vars};
use crate::types::result_type;
use plc_text::Items;
use st_parser_expr::{Cursor, Stop};
use st_parser_stmt::{Held, body_until, eat, is_next};
use st_tree::{
    ClassDecl, ClassSort, InterfaceDecl, Member, Method, Modifier, Name, Prototype, Terminal, Used,
};
use std::alloc::Global;

/// What stands before the parts of a class.
#[derive(Drop)]
struct ClassHead {
    modifiers: Items<Modifier>,
    name: Name,
    base: Option<Used<u32>>,
    interfaces: Items<Used<u32>>,
}

/// A method of an interface.
fn prototype(alloc: Global, tokens: &mut Cursor<'_, '_>) -> Result<Prototype<u32>, Stop>
    ensures ok { IfOk result (λ m. Parses (d.prototype m) w.prototype tokens.old tokens.new) }
    ensures err { IfErr result (Fails w.prototype tokens.old) }
{
    let line = tokens.line();
    sign(tokens, Terminal::Method)?;
    let name = name(alloc, tokens)?;
    let result = result_type(alloc, tokens)?;
    let result = Held::new(result);
    may_semicolon(tokens);
    let sections = sections(alloc, tokens)?;
    sign(tokens, Terminal::EndMethod)?;
    let result = result.into_inner();
    Ok(Prototype {
        line,
        name,
        result,
        sections,
    })
}

/// Methods of an interface as often as they come.
fn prototypes(alloc: Global, tokens: &mut Cursor<'_, '_>) -> Result<Items<Prototype<u32>>, Stop>
    ensures ok { IfOk result (λ found. Parses (g.each d.prototype found) (f.several w.prototype) tokens.old tokens.new) }
    ensures err { IfErr result (Fails (f.several w.prototype) tokens.old) }
{
    let mut found = Items::new(alloc);
    while is_next(tokens, Terminal::Method) {
        let one = prototype(alloc, tokens)?;
        found.push(one)?;
    }
    Ok(found)
}

/// The interfaces that an interface extends, if any.
fn extended(alloc: Global, tokens: &mut Cursor<'_, '_>) -> Result<Items<Used<u32>>, Stop>
    ensures ok { IfOk result (λ us. Parses (d.extended us) w.extended tokens.old tokens.new) }
    ensures err { IfErr result (Fails w.extended tokens.old) }
{
    if !eat(tokens, Terminal::Extends) {
        return Ok(Items::new(alloc));
    }
    let bases = used_names(alloc, tokens)?;
    Ok(bases)
}

pub fn interface(alloc: Global, tokens: &mut Cursor<'_, '_>) -> Result<InterfaceDecl<u32>, Stop>
    ensures ok { IfOk result (λ i. Parses (d.interface i) w.interface tokens.old tokens.new) }
    ensures err { IfErr result (Fails w.interface tokens.old) }
{
    let line = tokens.line();
    sign(tokens, Terminal::Interface)?;
    let name = name(alloc, tokens)?;
    let bases = extended(alloc, tokens)?;
    let methods = prototypes(alloc, tokens)?;
    sign(tokens, Terminal::EndInterface)?;
    Ok(InterfaceDecl {
        line,
        name,
        bases,
        methods,
    })
}

fn method(alloc: Global, tokens: &mut Cursor<'_, '_>) -> Result<Method<u32>, Stop>
    ensures ok { IfOk result (λ m. Parses (d.method m) w.method tokens.old tokens.new) }
    ensures err { IfErr result (Fails w.method tokens.old) }
{
    let line = tokens.line();
    sign(tokens, Terminal::Method)?;
    let modifiers = modifiers(alloc, tokens, Words::Method)?;
    let name = name(alloc, tokens)?;
    let result = result_type(alloc, tokens)?;
    let result = Held::new(result);
    may_semicolon(tokens);
    let sections = sections(alloc, tokens)?;
    let body = body_until(alloc, tokens, Terminal::EndMethod)?;
    let result = result.into_inner();
    Ok(Method {
        line,
        modifiers,
        name,
        result,
        sections,
        body,
    })
}

/// A part of a class, where one begins.
fn member(alloc: Global, tokens: &mut Cursor<'_, '_>) -> Result<Option<Member<u32>>, Stop>
    ensures ok { IfOk result (λ m. Perhaps d.member w.member m tokens.old tokens.new) }
    ensures err { IfErr result (FailsInside w.member tokens.old) }
{
    if is_next(tokens, Terminal::Method) {
        let method = method(alloc, tokens)?;
        return Ok(Some(Member::Method(method)));
    }
    match vars(alloc, tokens)? {
        Some(section) => Ok(Some(Member::Section(section))),
        None => Ok(None),
    }
}

fn members(alloc: Global, tokens: &mut Cursor<'_, '_>) -> Result<Items<Member<u32>>, Stop>
    ensures ok { IfOk result (λ found. Parses (g.each d.member found) w.members tokens.old tokens.new) }
    ensures err { IfErr result (Fails w.members tokens.old) }
{
    let mut found = Items::new(alloc);
    while let Some(one) = member(alloc, tokens)? {
        found.push(one)?;
    }
    Ok(found)
}

/// The class that a class extends, if any.
fn base(alloc: Global, tokens: &mut Cursor<'_, '_>) -> Result<Option<Used<u32>>, Stop>
    ensures ok { IfOk result (λ u. Parses (d.base u) w.base tokens.old tokens.new) }
    ensures err { IfErr result (Fails w.base tokens.old) }
{
    if !eat(tokens, Terminal::Extends) {
        return Ok(None);
    }
    let base = used(alloc, tokens)?;
    Ok(Some(base))
}

/// The interfaces that a class implements, if any.
fn implemented(alloc: Global, tokens: &mut Cursor<'_, '_>) -> Result<Items<Used<u32>>, Stop>
    ensures ok { IfOk result (λ us. Parses (d.implemented us) w.implemented tokens.old tokens.new) }
    ensures err { IfErr result (Fails w.implemented tokens.old) }
{
    if !eat(tokens, Terminal::Implements) {
        return Ok(Items::new(alloc));
    }
    let interfaces = used_names(alloc, tokens)?;
    Ok(interfaces)
}

fn head(alloc: Global, tokens: &mut Cursor<'_, '_>) -> Result<ClassHead, Stop>
    ensures ok { IfOk result (λ h. Parses (Headed h) w.head tokens.old tokens.new) }
    ensures err { IfErr result (Fails w.head tokens.old) }
{
    let modifiers = modifiers(alloc, tokens, Words::Class)?;
    let name = name(alloc, tokens)?;
    let base = base(alloc, tokens)?;
    let interfaces = implemented(alloc, tokens)?;
    Ok(ClassHead {
        modifiers,
        name,
        base,
        interfaces,
    })
}

pub fn class(alloc: Global, tokens: &mut Cursor<'_, '_>) -> Result<ClassDecl<u32>, Stop>
    ensures ok { IfOk result (λ k. Parses (d.class k) w.class tokens.old tokens.new) }
    ensures err { IfErr result (Fails w.class tokens.old) }
{
    let line = tokens.line();
    sign(tokens, Terminal::Class)?;
    let head = head(alloc, tokens)?;
    let head = Held::new(head);
    let members = members(alloc, tokens)?;
    sign(tokens, Terminal::EndClass)?;
    let head = head.into_inner();
    let ClassHead {
        modifiers,
        name,
        base,
        interfaces,
    } = head;
    let body = Items::new(alloc);
    Ok(ClassDecl {
        line,
        sort: ClassSort::Class,
        modifiers,
        name,
        base,
        interfaces,
        members,
        body,
    })
}

/// A function block.
pub fn block(alloc: Global, tokens: &mut Cursor<'_, '_>) -> Result<ClassDecl<u32>, Stop>
    ensures ok { IfOk result (λ k. Parses (d.class k) w.block tokens.old tokens.new) }
    ensures err { IfErr result (Fails w.block tokens.old) }
{
    let line = tokens.line();
    sign(tokens, Terminal::FunctionBlock)?;
    let head = head(alloc, tokens)?;
    let head = Held::new(head);
    let members = members(alloc, tokens)?;
    let body = body_until(alloc, tokens, Terminal::EndFunctionBlock)?;
    let head = head.into_inner();
    let ClassHead {
        modifiers,
        name,
        base,
        interfaces,
    } = head;
    Ok(ClassDecl {
        line,
        sort: ClassSort::FunctionBlock,
        modifiers,
        name,
        base,
        interfaces,
        members,
        body,
    })
}
