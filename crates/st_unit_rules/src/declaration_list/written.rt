//! The variables of sections, one by one.

ghost use Rattle.std.specs.Prelude.{◌≡◌, ◌∷◌, [], ◌++◌, true, map, flat_map, IfOk, OnOk};
ghost use Rattle.st_unit_rules.specs.declared_names.Declarations as declarations;
ghost use Rattle.st_unit_rules.specs.declared_names.Variables as variables;
ghost use Rattle.st_unit_rules.specs.declared_names.Variables.{sections_in, sections_written};
ghost use Rattle.st_rules.specs.Modifiers as modifiers;
ghost use Rattle.st_unit_rules.specs.declaration_list.Written.{written_in, global_of, written_of, names_from, names_in_item, names_in_section, names_in_sections};

use plc_text::NoMemory;
use st_rules::{is_body_sort, is_external, is_instance_sort, is_parameter_sort};
use st_tree::{Item, Member, Modifier, Name, Section};
use std::alloc::Global;

/// A name that is declared, with its section and its item.
#[derive(Clone, Copy)]
pub struct WrittenName<'a> {
    pub section: &'a Section<u32>,
    pub item: &'a Item<u32>,
    pub name: &'a Name,
    /// Whether it is the first name of its item.
    pub first: bool,
}

fn is_constant_word(word: Modifier) -> bool
    ensures { result ≡ modifiers.is_constant_word word }
{
    matches!(word, Modifier::Constant)
}

fn has_constant_word(words: &[Modifier]) -> bool
    ensures { result ≡ modifiers.is_constant words.now }
{
    words.iter().any(|word| is_constant_word(*word))
}

impl<'a> WrittenName<'a> {
    /// Whether it is a constant. Of an external CONSTANT says nothing.
    pub fn is_constant(&self) -> bool
        ensures { result ≡ (written_of self.now).constant }
    {
        has_constant_word(self.section.modifiers.as_slice()) && !is_external(self.section.sort)
    }

    /// Whether each instance has it as a variable.
    pub fn is_kept(&self) -> bool
        ensures { result ≡ variables.is_kept_written (written_of self.now) }
    {
        is_instance_sort(self.section.sort) && !self.is_constant()
    }
}

/// The line of an item, which is that of its first name.
pub fn item_line(item: &Item<u32>) -> u32
    ensures { result ≡ declarations.item_line item.now }
{
    match item.names.as_slice() {
        [first, ..] => first.line,
        [] => 0,
    }
}

fn add_names<'a>(
    list: &mut Vec<WrittenName<'a>>,
    section: &'a Section<u32>,
    item: &'a Item<u32>,
    names: &'a [Name],
) -> Result<(), NoMemory>
    ensures { OnOk result (map global_of list.new.items ≡ map global_of list.old.items ++ names_from section.now item.now true (map (written_in section.now item.now) names.now)) }
{
    let mut first = true;
    for name in names {
        list.push(WrittenName {
            section,
            item,
            name,
            first,
        })?;
        first = false;
    }
    Ok(())
}

fn add_items<'a>(
    list: &mut Vec<WrittenName<'a>>,
    section: &'a Section<u32>,
    items: &'a [Item<u32>],
) -> Result<(), NoMemory>
    ensures { OnOk result (map global_of list.new.items ≡ map global_of list.old.items ++ flat_map (names_in_item section.now) items.now) }
{
    for item in items {
        add_names(list, section, item, item.names.as_slice())?;
    }
    Ok(())
}

fn add_section<'a>(
    list: &mut Vec<WrittenName<'a>>,
    section: &'a Section<u32>,
) -> Result<(), NoMemory>
    ensures { OnOk result (map global_of list.new.items ≡ map global_of list.old.items ++ names_in_section section.now) }
{
    add_items(list, section, section.items.as_slice())
}

/// Adds the names of sections.
pub fn add_sections<'a>(
    list: &mut Vec<WrittenName<'a>>,
    sections: &'a [Section<u32>],
) -> Result<(), NoMemory>
    ensures { OnOk result (map global_of list.new.items ≡ map global_of list.old.items ++ names_in_sections sections.now) }
{
    for section in sections {
        add_section(list, section)?;
    }
    Ok(())
}

/// The names of one section.
pub fn section_names<'a>(
    alloc: Global,
    section: &'a Section<u32>,
) -> Result<Vec<WrittenName<'a>>, NoMemory>
    ensures { IfOk result (λ list. map global_of list.items ≡ names_in_section section.now) }
{
    let mut list = Vec::new(alloc);
    add_section(&mut list, section)?;
    Ok(list)
}

/// The names that sections declare.
pub fn written_names<'a>(
    alloc: Global,
    sections: &'a [Section<u32>],
) -> Result<Vec<WrittenName<'a>>, NoMemory>
    ensures names { IfOk result (λ list. map global_of list.items ≡ names_in_sections sections.now) }
    ensures written { IfOk result (λ list. map written_of list.items ≡ sections_written sections.now) }
{
    let mut list = Vec::new(alloc);
    add_sections(&mut list, sections)?;
    Ok(list)
}

fn add_member<'a>(list: &mut Vec<WrittenName<'a>>, member: &'a Member<u32>) -> Result<(), NoMemory>
    ensures { OnOk result (map global_of list.new.items ≡ map global_of list.old.items ++ names_in_sections (sections_in (member.now ∷ []))) }
{
    match member {
        Member::Section(section) => add_section(list, section)?,
        Member::Method(_) => {}
    }
    Ok(())
}

/// The names that the sections among a class's members declare.
pub fn written_members<'a>(
    alloc: Global,
    members: &'a [Member<u32>],
) -> Result<Vec<WrittenName<'a>>, NoMemory>
    ensures names { IfOk result (λ list. map global_of list.items ≡ names_in_sections (sections_in members.now)) }
    ensures written { IfOk result (λ list. map written_of list.items ≡ sections_written (sections_in members.now)) }
{
    let mut list = Vec::new(alloc);
    for member in members {
        add_member(&mut list, member)?;
    }
    Ok(list)
}

/// Whether the name is that of an input, an output or an in-out.
pub fn is_parameter(name: &WrittenName<'_>) -> bool
    ensures { result ≡ variables.is_parameter_written (written_of name.now) }
{
    is_parameter_sort(name.section.sort) && !name.is_constant()
}

/// Whether only the body has it: an in-out or a temporary variable.
pub fn is_of_body(name: &WrittenName<'_>) -> bool
    ensures { result ≡ variables.is_body_written (written_of name.now) }
{
    is_body_sort(name.section.sort) && !name.is_constant()
}
