//! Sections of variables (IEC 61131-3:2013, 6.5).

ghost use Rattle.std.specs.Prelude.{◌≡◌, Some, true, false, IfSome, IfNone, IfOk, IfErr};
ghost use Rattle.st_tree.specs.declared.terminal.Terminal.TheVariants as x;
ghost use Rattle.st_tree.specs.Grammar as g;
ghost use Rattle.st_tree.specs.Declarations as d;
ghost use Rattle.st_parser_expr.specs.Private.Promises as e;
ghost use Rattle.st_parser_decl.specs.Private.Form as f;
ghost use Rattle.st_parser_decl.specs.Private.Rules as w;
ghost use Rattle.st_parser_decl.specs.Private.Promises.{first_in, Parses, Fails, FailsInside, Perhaps};
ghost use Rattle.st_parser_decl.specs.Private.Sections as m;

use crate::leaf::{names, sign, text};
use crate::types::{start_value, type_spec};
use plc_text::{Items, Text};
use st_parser_expr::{Cursor, Stop};
use st_parser_stmt::{Held, eat, is_next};
use st_tree::{Item, Modifier, Section, SectionSort, Terminal};
use std::alloc::Global;

/// Which modifiers may stand in a place.
#[derive(Clone, Copy)]
pub enum Words {
    /// Behind VAR_GLOBAL.
    Keep,
    /// Behind the word of any other section.
    Section,
    /// Behind CLASS or FUNCTION_BLOCK.
    Class,
    /// Behind METHOD.
    Method,
}

fn modifier_of(terminal: Terminal) -> Option<Modifier>
    ensures { result ≡ m.modifier_of terminal }
{
    match terminal {
        Terminal::Constant => Some(Modifier::Constant),
        Terminal::Retain => Some(Modifier::Retain),
        Terminal::NonRetain => Some(Modifier::NonRetain),
        Terminal::Persistent => Some(Modifier::Persistent),
        Terminal::Public => Some(Modifier::Public),
        Terminal::Protected => Some(Modifier::Protected),
        Terminal::Private => Some(Modifier::Private),
        Terminal::Internal => Some(Modifier::Internal),
        Terminal::Abstract => Some(Modifier::Abstract),
        Terminal::Final => Some(Modifier::Final),
        Terminal::Override => Some(Modifier::Override),
        _ => None,
    }
}

fn may_stand(words: Words, modifier: Modifier) -> bool
    ensures { result ≡ m.allowed words modifier }
{
    match modifier {
        Modifier::Constant | Modifier::Retain | Modifier::NonRetain | Modifier::Persistent =>
            match words {
                Words::Keep | Words::Section => true,
                _ => false,
            },
        Modifier::Public | Modifier::Protected | Modifier::Private | Modifier::Internal =>
            match words {
                Words::Section | Words::Method => true,
                _ => false,
            },
        Modifier::Abstract | Modifier::Final => match words {
            Words::Class | Words::Method => true,
            _ => false,
        },
        Modifier::Override => match words {
            Words::Method => true,
            _ => false,
        },
    }
}

/// The modifier that comes next, if one does that may stand here.
fn next_modifier(tokens: &Cursor<'_, '_>, words: Words) -> Option<Modifier>
    ensures some { IfSome result (λ w. (m.allowed words w ≡ true) × (e.next_terminal tokens.now ≡ Some (d.modifier_terminal w))) }
    ensures none { IfNone result (first_in (m.in_words words) tokens.now ≡ false) }
{
    let modifier = modifier_of(tokens.peek()?)?;
    if may_stand(words, modifier) {
        Some(modifier)
    } else {
        None
    }
}

/// Modifiers as often as they come.
pub fn modifiers(
    alloc: Global,
    tokens: &mut Cursor<'_, '_>,
    words: Words,
) -> Result<Items<Modifier>, Stop>
    ensures ok { IfOk result (λ found. Parses (g.each (d.modifier_in (m.allowed words)) found) (f.several (m.one_word words)) tokens.old tokens.new) }
    ensures err { IfErr result (Fails (f.several (m.one_word words)) tokens.old) }
{
    let mut found = Items::new(alloc);
    while let Some(modifier) = next_modifier(tokens, words) {
        tokens.bump();
        found.push(modifier)?;
    }
    Ok(found)
}

/// Where variables stand, if somewhere in particular.
fn address(alloc: Global, tokens: &mut Cursor<'_, '_>) -> Result<Option<Text>, Stop>
    ensures ok { IfOk result (λ o. Parses (d.address o) w.address tokens.old tokens.new) }
    ensures err { IfErr result (Fails w.address tokens.old) }
{
    if !eat(tokens, Terminal::At) {
        return Ok(None);
    }
    let address = text(alloc, tokens, Terminal::Address)?;
    Ok(Some(address))
}

fn item(alloc: Global, tokens: &mut Cursor<'_, '_>) -> Result<Item<u32>, Stop>
    ensures ok { IfOk result (λ i. Parses (d.item i) w.item tokens.old tokens.new) }
    ensures err { IfErr result (Fails w.item tokens.old) }
{
    let marks = tokens.marks(alloc)?;
    let marks = Held::new(marks);
    let names = names(alloc, tokens)?;
    let address = address(alloc, tokens)?;
    let address = Held::new(address);
    sign(tokens, Terminal::Colon)?;
    let kind = type_spec(alloc, tokens)?;
    let kind = Held::new(kind);
    let initial = start_value(alloc, tokens)?;
    let initial = Held::new(initial);
    sign(tokens, Terminal::Semicolon)?;
    let marks = marks.into_inner();
    let address = address.into_inner();
    let kind = kind.into_inner();
    let initial = initial.into_inner();
    Ok(Item {
        marks,
        names,
        address,
        kind,
        initial,
    })
}

fn items(alloc: Global, tokens: &mut Cursor<'_, '_>) -> Result<Items<Item<u32>>, Stop>
    ensures ok { IfOk result (λ found. Parses (g.each d.item found) w.items tokens.old tokens.new) }
    ensures err { IfErr result (Fails w.items tokens.old) }
{
    let mut found = Items::new(alloc);
    while is_next(tokens, Terminal::Word) {
        let one = item(alloc, tokens)?;
        found.push(one)?;
    }
    Ok(found)
}

fn sort_of(terminal: Terminal) -> Option<SectionSort>
    ensures { result ≡ m.sort_of terminal }
{
    match terminal {
        Terminal::Var => Some(SectionSort::Var),
        Terminal::VarInput => Some(SectionSort::Input),
        Terminal::VarOutput => Some(SectionSort::Output),
        Terminal::VarInOut => Some(SectionSort::InOut),
        Terminal::VarTemp => Some(SectionSort::Temp),
        Terminal::VarExternal => Some(SectionSort::External),
        _ => None,
    }
}

/// The sort of the section that comes next, if one does that is not of globals.
fn next_sort(tokens: &Cursor<'_, '_>) -> Option<SectionSort>
    ensures some { IfSome result (λ s. (d.is_global s ≡ false) × (e.next_terminal tokens.now ≡ Some (d.section_terminal s))) }
    ensures none { IfNone result (first_in w.is_section tokens.now ≡ false) }
{
    sort_of(tokens.peek()?)
}

/// A section that is not of globals, where one begins.
pub fn vars(alloc: Global, tokens: &mut Cursor<'_, '_>) -> Result<Option<Section<u32>>, Stop>
    ensures ok { IfOk result (λ s. Perhaps d.vars w.vars s tokens.old tokens.new) }
    ensures err { IfErr result (FailsInside w.vars tokens.old) }
{
    let line = tokens.line();
    let sort = match next_sort(tokens) {
        Some(sort) => sort,
        None => return Ok(None),
    };
    tokens.bump();
    let modifiers = modifiers(alloc, tokens, Words::Section)?;
    let items = items(alloc, tokens)?;
    sign(tokens, Terminal::EndVar)?;
    Ok(Some(Section {
        line,
        sort,
        modifiers,
        items,
    }))
}

/// A section of globals.
pub fn globals(alloc: Global, tokens: &mut Cursor<'_, '_>) -> Result<Section<u32>, Stop>
    ensures ok { IfOk result (λ s. Parses (d.globals s) w.globals tokens.old tokens.new) }
    ensures err { IfErr result (Fails w.globals tokens.old) }
{
    let line = tokens.line();
    sign(tokens, Terminal::VarGlobal)?;
    let modifiers = modifiers(alloc, tokens, Words::Keep)?;
    let items = items(alloc, tokens)?;
    sign(tokens, Terminal::EndVar)?;
    Ok(Section {
        line,
        sort: SectionSort::Global,
        modifiers,
        items,
    })
}

/// Sections as often as they come.
pub fn sections(alloc: Global, tokens: &mut Cursor<'_, '_>) -> Result<Items<Section<u32>>, Stop>
    ensures ok { IfOk result (λ found. Parses (g.each d.vars found) w.sections tokens.old tokens.new) }
    ensures err { IfErr result (Fails w.sections tokens.old) }
{
    let mut found = Items::new(alloc);
    while let Some(one) = vars(alloc, tokens)? {
        found.push(one)?;
    }
    Ok(found)
}

/// Sections of globals as often as they come.
pub fn global_sections(
    alloc: Global,
    tokens: &mut Cursor<'_, '_>,
) -> Result<Items<Section<u32>>, Stop>
    ensures ok { IfOk result (λ found. Parses (g.each d.globals found) w.global_sections tokens.old tokens.new) }
    ensures err { IfErr result (Fails w.global_sections tokens.old) }
{
    let mut found = Items::new(alloc);
    while is_next(tokens, Terminal::VarGlobal) {
        let one = globals(alloc, tokens)?;
        found.push(one)?;
    }
    Ok(found)
}
