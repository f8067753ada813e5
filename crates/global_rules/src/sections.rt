//! The globals of sections, in the order of the text.

ghost use Rattle.std.specs.Prelude.{◌≡◌, ◌∷◌, [], flat_map, false, OnOk};
ghost use Rattle.st_unit_rules.specs.declaration_list.Written as written;
ghost use Rattle.st_unit_rules.specs.DeclarationRules as rules;
ghost use Rattle.global_rules.specs.Shared.{ChecksShared};
ghost use Rattle.global_rules.specs.Sections.{Adds};
ghost use Rattle.global_rules.specs.Private.Sections.{global_with};

use crate::globals::{CheckedRegions, check_global};
use crate::shared::{SharedItem, check_shared};
use name_resolution::Scope;
use plc_text::{Code, NoMemory};
use st_tree::{Item, Name, Section};
use st_unit_rules::declaration_list::WrittenName;
use std::alloc::Global;
use symbol_table::unit_tables::UnitTables;

/// The faults of globals so far.
type Faults = Vec<Option<(Code, u32)>>;

/// An item with its section.
#[derive(Clone, Copy)]
struct ItemOf<'a> {
    section: &'a Section<u32>,
    item: &'a Item<u32>,
}

/// Checks one more global of an item that was checked.
fn add_global(
    alloc: Global,
    tables: &UnitTables<'_>,
    s: &Scope<'_>,
    regions: &mut CheckedRegions,
    faults: &mut Faults,
    shared: &SharedItem,
    name: &WrittenName<'_>,
) -> Result<(), NoMemory>
    requires scope { s.now ≡ rules.unit tables.now.decls }
    requires shared { ChecksShared shared.now tables.now.decls name.now.section.now name.now.item.now }
    ensures { OnOk result (Adds tables.now.decls faults.old.items regions.old faults.new.items regions.new (written.global_of name.now ∷ [])) }
{
    let fault = check_global(alloc, tables, s, regions, shared, name)?;
    faults.push(fault)?;
    Ok(())
}

/// Checks the globals of these names of an item that was checked, none of which is the first one.
fn add_others(
    alloc: Global,
    tables: &UnitTables<'_>,
    s: &Scope<'_>,
    regions: &mut CheckedRegions,
    faults: &mut Faults,
    of: &ItemOf<'_>,
    shared: &SharedItem,
    names: &[Name],
) -> Result<(), NoMemory>
    requires scope { s.now ≡ rules.unit tables.now.decls }
    requires shared { ChecksShared shared.now tables.now.decls of.now.section.now of.now.item.now }
    ensures { OnOk result (Adds tables.now.decls faults.old.items regions.old faults.new.items regions.new (flat_map (λ n. global_with of.now.section.now of.now.item.now false n ∷ []) names.now)) }
{
    for name in names {
        let name = WrittenName {
            section: of.section,
            item: of.item,
            name,
            first: false,
        };
        add_global(alloc, tables, s, regions, faults, shared, &name)?;
    }
    Ok(())
}

/// Checks the globals of an item.
fn add_item(
    alloc: Global,
    tables: &UnitTables<'_>,
    s: &Scope<'_>,
    regions: &mut CheckedRegions,
    faults: &mut Faults,
    of: &ItemOf<'_>,
) -> Result<(), NoMemory>
    requires scope { s.now ≡ rules.unit tables.now.decls }
    ensures { OnOk result (Adds tables.now.decls faults.old.items regions.old faults.new.items regions.new (written.names_in_item of.now.section.now of.now.item.now)) }
{
    let shared = check_shared(alloc, tables, s, of.section, of.item)?;
    match of.item.names.as_slice() {
        [name, others @ ..] => {
            let name = WrittenName {
                section: of.section,
                item: of.item,
                name,
                first: true,
            };
            add_global(alloc, tables, s, regions, faults, &shared, &name)?;
            add_others(alloc, tables, s, regions, faults, of, &shared, others)?;
            Ok(())
        }
        [] => Ok(()),
    }
}

/// Checks the globals of a section.
fn add_section(
    alloc: Global,
    tables: &UnitTables<'_>,
    s: &Scope<'_>,
    regions: &mut CheckedRegions,
    faults: &mut Faults,
    section: &Section<u32>,
) -> Result<(), NoMemory>
    requires scope { s.now ≡ rules.unit tables.now.decls }
    ensures { OnOk result (Adds tables.now.decls faults.old.items regions.old faults.new.items regions.new (written.names_in_section section.now)) }
{
    let items = section.items.as_slice();
    for item in items {
        let of = ItemOf { section, item };
        add_item(alloc, tables, s, regions, faults, &of)?;
    }
    Ok(())
}

/// Checks the globals of sections, in the scope of the unit: for each, in the order of the text, the least rule that it breaks among the
/// regions before it, at its least line. Their regions come behind those that were checked before.
pub fn check_globals(
    alloc: Global,
    tables: &UnitTables<'_>,
    s: &Scope<'_>,
    regions: &mut CheckedRegions,
    faults: &mut Vec<Option<(Code, u32)>>,
    sections: &[Section<u32>],
) -> Result<(), NoMemory>
    requires scope { s.now ≡ rules.unit tables.now.decls }
    ensures { OnOk result (Adds tables.now.decls faults.old.items regions.old faults.new.items regions.new (written.names_in_sections sections.now)) }
{
    for section in sections {
        add_section(alloc, tables, s, regions, faults, section)?;
    }
    Ok(())
}
