//! The names that sections declare, with their types and values; each item is evaluated once.

ghost use Rattle.std.specs.Prelude.{◌≡◌, ◌∷◌, [], ◌++◌, map, flat_map, IfOk, OnOk};
ghost use Rattle.st_unit_rules.specs.declared_names.Variables.{section_written, sections_in, sections_written};
ghost use Rattle.st_unit_rules.specs.declared_names.WrittenTypes.{type_written};
ghost use Rattle.st_unit_rules.specs.declaration_list.Written.{written_in, written_of};
ghost use Rattle.type_resolution.specs.declared_variables.Private.Told as own;

use crate::written_types::{constant_of, type_written};
use name_resolution::Scope;
use plc_text::NoMemory;
use st_rules::copied;
use st_tree::{Item, Member, Name, Section};
use st_types::StType;
use st_unit_rules::declaration_list::WrittenName;
use std::alloc::Global;

/// A name, its type, and the value of a constant, where they can be told.
pub struct ToldName<'a> {
    pub name: WrittenName<'a>,
    pub kind: Option<StType>,
    pub value: Option<i128>,
}

// By hand, so that a drop is one call: a derived one is written out wherever a `?` may need it.
impl Drop for ToldName<'_> {
    fn drop(self) {
        let ToldName {
            name: _,
            kind: _,
            value: _,
        } = self;
    }
}

/// The type of an item, and the value of its constants.
struct ToldItem {
    kind: Option<StType>,
    value: Option<i128>,
}

impl Drop for ToldItem {
    fn drop(self) {
        let ToldItem { kind: _, value: _ } = self;
    }
}

/// What is told of an item, by one of its names.
fn told_item(alloc: Global, s: &Scope<'_>, name: &WrittenName<'_>) -> Result<ToldItem, NoMemory>
    ensures kind { IfOk result (λ t. t.kind ≡ type_written s.now (written_of name.now).item.kind) }
    ensures value { IfOk result (λ t. t.value ≡ own.value_in s.now (written_of name.now)) }
{
    if !name.is_constant() {
        let kind = type_written(alloc, s, &name.item.kind)?;
        return Ok(ToldItem { kind, value: None });
    }
    match constant_of(alloc, s, name)? {
        Some((kind, value)) => Ok(ToldItem {
            kind: Some(kind),
            value: Some(value),
        }),
        None => {
            let kind = type_written(alloc, s, &name.item.kind)?;
            Ok(ToldItem { kind, value: None })
        }
    }
}

fn written_name<'a>(
    section: &'a Section<u32>,
    item: &'a Item<u32>,
    name: &'a Name,
) -> WrittenName<'a>
    ensures { written_of result ≡ written_in section.now item.now name.now }
{
    WrittenName {
        section,
        item,
        name,
        first: false,
    }
}

fn add_name<'a>(
    alloc: Global,
    list: &mut Vec<ToldName<'a>>,
    name: &WrittenName<'a>,
    told: &ToldItem,
) -> Result<(), NoMemory>
    ensures { OnOk result (map own.told_as list.new.items ≡ map own.told_as list.old.items ++ own.name_told told.now.kind told.now.value (written_of name.now) ∷ []) }
{
    let kind = copied(alloc, &told.kind)?;
    list.push(ToldName {
        name: *name,
        kind,
        value: told.value,
    })?;
    Ok(())
}

fn add_names<'a>(
    alloc: Global,
    list: &mut Vec<ToldName<'a>>,
    section: &'a Section<u32>,
    item: &'a Item<u32>,
    told: &ToldItem,
) -> Result<(), NoMemory>
    ensures { OnOk result (map own.told_as list.new.items ≡ map own.told_as list.old.items ++ map (own.named section.now item.now told.now.kind told.now.value) item.now.names) }
{
    let names = item.names.as_slice();
    for name in names {
        add_name(alloc, list, &written_name(section, item, name), told)?;
    }
    Ok(())
}

/// Adds the names of an item.
fn add_item<'a>(
    alloc: Global,
    s: &Scope<'_>,
    list: &mut Vec<ToldName<'a>>,
    section: &'a Section<u32>,
    item: &'a Item<u32>,
) -> Result<(), NoMemory>
    ensures { OnOk result (map own.told_as list.new.items ≡ map own.told_as list.old.items ++ own.names_of_item s.now section.now item.now) }
{
    let Some(first) = item.names.as_slice().first() else {
        return Ok(());
    };
    let told = told_item(alloc, s, &written_name(section, item, first))?;
    add_names(alloc, list, section, item, &told)?;
    Ok(())
}

fn add_section<'a>(
    alloc: Global,
    s: &Scope<'_>,
    list: &mut Vec<ToldName<'a>>,
    section: &'a Section<u32>,
) -> Result<(), NoMemory>
    ensures { OnOk result (map own.told_as list.new.items ≡ map own.told_as list.old.items ++ own.names_of_section s.now section.now) }
{
    let items = section.items.as_slice();
    for item in items {
        add_item(alloc, s, list, section, item)?;
    }
    Ok(())
}

fn add_sections<'a>(
    alloc: Global,
    s: &Scope<'_>,
    list: &mut Vec<ToldName<'a>>,
    sections: &'a [Section<u32>],
) -> Result<(), NoMemory>
    ensures { OnOk result (map own.told_as list.new.items ≡ map own.told_as list.old.items ++ flat_map (own.names_of_section s.now) sections.now) }
{
    for section in sections {
        add_section(alloc, s, list, section)?;
    }
    Ok(())
}

/// The names that sections declare.
#[tactic(auto, using(crate::proofs::declared_variables::NameLaws::all_names))]
pub fn told_names<'a>(
    alloc: Global,
    s: &Scope<'_>,
    sections: &'a [Section<u32>],
) -> Result<Vec<ToldName<'a>>, NoMemory>
    ensures { IfOk result (λ list. map own.told_as list.items ≡ map (own.told_of s.now) (sections_written sections.now)) }
{
    let mut list = Vec::new(alloc);
    add_sections(alloc, s, &mut list, sections)?;
    Ok(list)
}

/// The names that one section declares.
#[tactic(auto, using(crate::proofs::declared_variables::NameLaws::one_section))]
pub fn told_section<'a>(
    alloc: Global,
    s: &Scope<'_>,
    section: &'a Section<u32>,
) -> Result<Vec<ToldName<'a>>, NoMemory>
    ensures { IfOk result (λ list. map own.told_as list.items ≡ map (own.told_of s.now) (section_written section.now)) }
{
    let mut list = Vec::new(alloc);
    add_section(alloc, s, &mut list, section)?;
    Ok(list)
}

fn add_member<'a>(
    alloc: Global,
    s: &Scope<'_>,
    list: &mut Vec<ToldName<'a>>,
    member: &'a Member<u32>,
) -> Result<(), NoMemory>
    ensures { OnOk result (map own.told_as list.new.items ≡ map own.told_as list.old.items ++ flat_map (own.names_of_section s.now) (sections_in (member.now ∷ []))) }
{
    match member {
        Member::Section(section) => add_section(alloc, s, list, section)?,
        Member::Method(_) => {}
    }
    Ok(())
}

fn add_members<'a>(
    alloc: Global,
    s: &Scope<'_>,
    list: &mut Vec<ToldName<'a>>,
    members: &'a [Member<u32>],
) -> Result<(), NoMemory>
    ensures { OnOk result (map own.told_as list.new.items ≡ map own.told_as list.old.items ++ flat_map (own.names_of_section s.now) (sections_in members.now)) }
{
    for member in members {
        add_member(alloc, s, list, member)?;
    }
    Ok(())
}

/// The names that the sections among a class's members declare.
#[tactic(auto, using(crate::proofs::declared_variables::NameLaws::all_names))]
pub fn told_members<'a>(
    alloc: Global,
    s: &Scope<'_>,
    members: &'a [Member<u32>],
) -> Result<Vec<ToldName<'a>>, NoMemory>
    ensures { IfOk result (λ list. map own.told_as list.items ≡ map (own.told_of s.now) (sections_written (sections_in members.now))) }
{
    let mut list = Vec::new(alloc);
    add_members(alloc, s, &mut list, members)?;
    Ok(list)
}
