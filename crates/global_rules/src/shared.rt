//! What the names of an item of globals share.

ghost use Rattle.std.specs.Prelude.{◌≡◌, IfOk};
ghost use Rattle.st_unit_rules.specs.DeclarationRules as rules;
ghost use Rattle.global_rules.specs.Shared.{ChecksShared};
ghost use Rattle.global_rules.specs.Private.Shared.{IsShared};

use check_declared_variables::{CheckedItem, CheckedType, check_item, check_type};
use check_limits::{Within, too_deep};
use name_resolution::Scope;
use plc_text::{Code, NoMemory};
use section_rules::Home;
use st_rules::earlier;
use st_tree::{Item, Section};
use st_types::StType;
use st_unit_rules::declaration_list::item_line;
use std::alloc::Global;
use symbol_table::unit_tables::UnitTables;

/// What is found out about an item of globals.
#[derive(Drop)]
pub struct SharedItem {
    /// The type of its names, where it can be told.
    pub kind: Option<StType>,
    /// The least rule that it breaks with its first name, with its least line.
    pub least: Option<(Code, u32)>,
}

/// An item of this type, which breaks these rules.
fn shared_of(
    kind: CheckedType,
    item: CheckedItem,
    tables: &UnitTables<'_>,
    written: &Item<u32>,
) -> SharedItem
    ensures { IsShared result kind item tables.now.decls written.now }
{
    let deep = too_deep(
        tables.sizes(),
        tables.graph(),
        Within::Variable,
        item_line(written),
        &written.kind,
        &kind.kind,
    );
    SharedItem {
        kind: kind.into_kind(),
        least: earlier(item.least, deep),
    }
}

/// Checks what the names of an item of globals share: its type, its initial value, its address and its depth, in the scope of the unit.
pub fn check_shared(
    alloc: Global,
    tables: &UnitTables<'_>,
    s: &Scope<'_>,
    section: &Section<u32>,
    item: &Item<u32>,
) -> Result<SharedItem, NoMemory>
    requires { s.now ≡ rules.unit tables.now.decls }
    ensures { IfOk result (λ c. ChecksShared c tables.now.decls section.now item.now) }
{
    let found = check_item(
        alloc,
        s,
        tables.names(),
        tables.classes(),
        Home::Globals,
        section,
        item,
    )?;
    let kind = check_type(alloc, s, &item.kind)?;
    Ok(shared_of(kind, found, tables, item))
}
