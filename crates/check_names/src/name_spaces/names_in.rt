//! The names that declarations declare, in the order of the text.

ghost use Rattle.std.specs.Prelude.{◌≡◌, ◌++◌, ◌∷◌, [], ℕ, map, IfOk, OnOk};
ghost use Rattle.st_unit_rules.specs.NameRules as rules;
ghost use Rattle.check_names.specs.name_spaces.NamesIn.{names_of};
ghost use Rattle.check_names.specs.name_spaces.Private.Items.{item_names, names_in_sections};

use plc_text::NoMemory;
use st_tree::{FieldGroup, Item, Member, Name, Prototype, Section, TypeBody};
use std::alloc::Global;

fn add_all<'a>(list: &mut Vec<&'a Name>, names: &'a [Name]) -> Result<(), NoMemory>
    ensures { OnOk result (names_of list.new.items ≡ names_of list.old.items ++ names.now) }
{
    for name in names {
        list.push(name)?;
    }
    Ok(())
}

fn add_items<'a>(list: &mut Vec<&'a Name>, items: &'a [Item<u32>]) -> Result<(), NoMemory>
    ensures { OnOk result (names_of list.new.items ≡ names_of list.old.items ++ item_names items.now) }
{
    for item in items {
        add_all(list, item.names.as_slice())?;
    }
    Ok(())
}

fn add_sections<'a>(list: &mut Vec<&'a Name>, sections: &'a [Section<u32>]) -> Result<(), NoMemory>
    ensures { OnOk result (names_of list.new.items ≡ names_of list.old.items ++ names_in_sections sections.now) }
{
    for section in sections {
        add_items(list, section.items.as_slice())?;
    }
    Ok(())
}

/// The names that sections declare.
#[tactic(auto, using(crate::proofs::name_spaces::NameLaws::section_names_are))]
pub fn section_names(alloc: Global, sections: &[Section<u32>]) -> Result<Vec<&Name>, NoMemory>
    ensures { IfOk result (λ list. names_of list.items ≡ rules.section_names sections.now) }
{
    let mut list = Vec::new(alloc);
    add_sections(&mut list, sections)?;
    Ok(list)
}

#[tactic(auto, using(crate::proofs::name_spaces::NameLaws::one_section_is))]
fn add_member<'a>(list: &mut Vec<&'a Name>, member: &'a Member<u32>) -> Result<(), NoMemory>
    ensures { OnOk result (names_of list.new.items ≡ names_of list.old.items ++ rules.member_names (member.now ∷ [])) }
{
    match member {
        Member::Section(section) => add_items(list, section.items.as_slice())?,
        Member::Method(method) => list.push(&method.name)?,
    }
    Ok(())
}

/// The names of the variables and methods of a class, which have one space.
pub fn member_names(alloc: Global, members: &[Member<u32>]) -> Result<Vec<&Name>, NoMemory>
    ensures { IfOk result (λ list. names_of list.items ≡ rules.member_names members.now) }
{
    let mut list = Vec::new(alloc);
    for member in members {
        add_member(&mut list, member)?;
    }
    Ok(list)
}

/// The names of the methods of an interface.
pub fn prototype_names(alloc: Global, methods: &[Prototype<u32>]) -> Result<Vec<&Name>, NoMemory>
    ensures { IfOk result (λ list. names_of list.items ≡ map (λ m. m.name) methods.now) }
{
    let mut list = Vec::new(alloc);
    for method in methods {
        list.push(&method.name)?;
    }
    Ok(list)
}

fn add_groups<'a>(list: &mut Vec<&'a Name>, groups: &'a [FieldGroup<u32>]) -> Result<(), NoMemory>
    ensures { OnOk result (names_of list.new.items ≡ names_of list.old.items ++ rules.field_names groups.now) }
{
    for group in groups {
        add_all(list, group.names.as_slice())?;
    }
    Ok(())
}

/// The names of the fields of a structure or of the values of an enumeration.
pub fn part_names(alloc: Global, body: &TypeBody<u32>) -> Result<Vec<&Name>, NoMemory>
    ensures { IfOk result (λ list. names_of list.items ≡ rules.part_names body.now) }
{
    let mut list = Vec::new(alloc);
    match body {
        TypeBody::Alias(_) => {}
        TypeBody::Enumeration(names) => add_all(&mut list, names.as_slice())?,
        TypeBody::Structure(groups) => add_groups(&mut list, groups.as_slice())?,
    }
    Ok(list)
}
