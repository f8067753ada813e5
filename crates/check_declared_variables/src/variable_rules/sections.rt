//! Sections of variables.

ghost use Rattle.std.specs.Prelude.{◌≡◌, IfOk};
ghost use Rattle.section_rules.specs.Home.{home_of};
ghost use Rattle.section_rules.specs.Variables.{classes_of};
ghost use Rattle.check_declared_variables.specs.variable_rules.Sections.{ChecksSection, ChecksSections};
ghost use Rattle.check_declared_variables.specs.variable_rules.Private.Sections.{NoItems, AddsItem, ItemsFind, IsSection, NoSections, AddsSection};

use crate::variable_rules::items::{CheckedItem, check_item};
use name_resolution::{NameTables, Scope};
use plc_text::{Code, Items, NoMemory};
use section_rules::{Home, heading_fault};
use st_rules::earlier;
use st_tree::{ClassDecl, Item, Modifier, Note, Section};
use std::alloc::Global;

/// What is found out about items.
struct CheckedItems {
    least: Option<(Code, u32)>,
    items: Items<Item<Note>>,
}

// By hand, so that a drop is one call: a derived one is written out wherever a `?` may need it.
impl Drop for CheckedItems {
    fn drop(self) {
        drop(self.into_items());
    }
}

impl CheckedItems {
    /// The typed trees alone.
    fn into_items(self) -> Items<Item<Note>>
        ensures { result ≡ self.items }
    {
        let CheckedItems { least: _, items } = self;
        items
    }
}

/// What is found out about a section.
pub struct CheckedSection {
    /// The least rule that is broken, with its least line.
    pub least: Option<(Code, u32)>,
    pub section: Section<Note>,
}

impl Drop for CheckedSection {
    fn drop(self) {
        drop(self.into_section());
    }
}

impl CheckedSection {
    /// The typed tree alone.
    pub fn into_section(self) -> Section<Note>
        ensures { result ≡ self.section }
    {
        let CheckedSection { least: _, section } = self;
        section
    }
}

/// What is found out about sections.
pub struct CheckedSections {
    /// The least rule that is broken, with its least line.
    pub least: Option<(Code, u32)>,
    pub sections: Items<Section<Note>>,
}

impl Drop for CheckedSections {
    fn drop(self) {
        drop(self.into_sections());
    }
}

impl CheckedSections {
    /// The typed trees alone.
    pub fn into_sections(self) -> Items<Section<Note>>
        ensures { result ≡ self.sections }
    {
        let CheckedSections { least: _, sections } = self;
        sections
    }
}

fn no_items(alloc: Global) -> CheckedItems
    ensures { NoItems result }
{
    CheckedItems {
        least: None,
        items: Items::new(alloc),
    }
}

fn with_item(so_far: CheckedItems, one: CheckedItem) -> Result<CheckedItems, NoMemory>
    ensures { IfOk result (λ x. AddsItem x so_far one) }
{
    let mut so_far = so_far;
    so_far.least = earlier(so_far.least, one.least);
    so_far.items.push(one.into_item())?;
    Ok(so_far)
}

/// Checks items of a section.
fn check_items(
    alloc: Global,
    s: &Scope<'_>,
    names: &NameTables,
    classes: &[&ClassDecl<u32>],
    home: Home,
    section: &Section<u32>,
    items: &[Item<u32>],
) -> Result<CheckedItems, NoMemory>
    requires names { names.now.names ≡ s.now.names }
    requires classes { classes_of classes.now ≡ s.now.classes }
    ensures { IfOk result (λ x. ItemsFind x s.now (home_of home) section.now items.now) }
{
    let mut so_far = no_items(alloc);
    for item in items {
        let one = check_item(alloc, s, names, classes, home, section, item)?;
        so_far = with_item(so_far, one)?;
    }
    Ok(so_far)
}

/// A section with these words and items, whose words break this.
fn section_of(
    section: &Section<u32>,
    modifiers: Items<Modifier>,
    heading: Option<(Code, u32)>,
    found: CheckedItems,
) -> CheckedSection
    ensures { IsSection result section.now modifiers heading found }
{
    CheckedSection {
        least: earlier(heading, found.least),
        section: Section {
            line: section.line,
            sort: section.sort,
            modifiers,
            items: found.into_items(),
        },
    }
}

/// Checks a section: the least rule that it breaks, with those of its items, and its typed tree. The tables and the classes are those
/// that the scope sees. It takes time linear in the text.
pub fn check_section(
    alloc: Global,
    s: &Scope<'_>,
    names: &NameTables,
    classes: &[&ClassDecl<u32>],
    home: Home,
    section: &Section<u32>,
) -> Result<CheckedSection, NoMemory>
    requires names { names.now.names ≡ s.now.names }
    requires classes { classes_of classes.now ≡ s.now.classes }
    ensures { IfOk result (λ c. ChecksSection c s.now (home_of home) section.now) }
{
    let modifiers = Items::from_slice(alloc, section.modifiers.as_slice())?;
    let items = section.items.as_slice();
    let found = check_items(alloc, s, names, classes, home, section, items)?;
    let heading = heading_fault(home, section);
    Ok(section_of(section, modifiers, heading, found))
}

fn no_sections(alloc: Global) -> CheckedSections
    ensures { NoSections result }
{
    CheckedSections {
        least: None,
        sections: Items::new(alloc),
    }
}

fn with_section(so_far: CheckedSections, one: CheckedSection) -> Result<CheckedSections, NoMemory>
    ensures { IfOk result (λ x. AddsSection x so_far one) }
{
    let mut so_far = so_far;
    so_far.least = earlier(so_far.least, one.least);
    so_far.sections.push(one.into_section())?;
    Ok(so_far)
}

/// Checks sections: the least rule that they break, and their typed trees. The tables and the classes are those that the scope sees.
pub fn check_sections(
    alloc: Global,
    s: &Scope<'_>,
    names: &NameTables,
    classes: &[&ClassDecl<u32>],
    home: Home,
    sections: &[Section<u32>],
) -> Result<CheckedSections, NoMemory>
    requires names { names.now.names ≡ s.now.names }
    requires classes { classes_of classes.now ≡ s.now.classes }
    ensures { IfOk result (λ c. ChecksSections c s.now (home_of home) sections.now) }
{
    let mut so_far = no_sections(alloc);
    for section in sections {
        let one = check_section(alloc, s, names, classes, home, section)?;
        so_far = with_section(so_far, one)?;
    }
    Ok(so_far)
}
