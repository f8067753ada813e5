//! Globals, one by one.

ghost use Rattle.std.specs.Prelude.{◌≡◌, ◌++◌, List, [], ℕ, IfOk, OnOk};
ghost use Rattle.st_tree.specs.declared.unit.Decl.{Decl};
ghost use Rattle.st_unit_rules.specs.declared_names.Declarations.{Region, region_of_global};
ghost use Rattle.st_unit_rules.specs.declaration_list.Written.{global_of, written_of};
ghost use Rattle.st_rules.specs.Faults.{least};
ghost use Rattle.st_unit_rules.specs.DeclarationRules as rules;
ghost use Rattle.global_rules.specs.Globals.{HasRegions, made};
ghost use Rattle.global_rules.specs.Shared.{ChecksShared};
ghost use Rattle.global_rules.specs.Private.Globals.{IsOwn, region_when};

use crate::regions::region_of;
use crate::shared::SharedItem;
use check_regions::TakenRegions;
use name_resolution::Scope;
use plc_text::{Code, Items, NoMemory};
use section_rules::{Home, heading_fault};
use st_rules::earlier;
use st_tree::RegionDecl;
use st_unit_rules::declaration_list::WrittenName;
use std::alloc::Global;
use symbol_table::unit_tables::UnitTables;

/// The regions that were checked: what they take together, and each as it is in the checked program.
#[derive(Drop)]
pub struct CheckedRegions {
    pub taken: TakenRegions,
    pub regions: Items<RegionDecl>,
}

impl CheckedRegions {
    /// There are none.
    pub fn none(alloc: Global) -> Result<CheckedRegions, NoMemory>
        ensures { IfOk result (λ r. (decls : List (Decl ℕ)) → HasRegions r decls []) }
    {
        let taken = TakenRegions::none(alloc)?;
        Ok(CheckedRegions {
            taken,
            regions: Items::new(alloc),
        })
    }
}

/// What a global breaks by its section, and by its item, if it is the first name there.
fn own_fault(shared: &SharedItem, name: &WrittenName<'_>) -> Option<(Code, u32)>
    ensures { IsOwn result shared.now name.now }
{
    let heading = heading_fault(Home::Globals, name.section);
    if name.first {
        earlier(heading, shared.least)
    } else {
        heading
    }
}

/// The region of a global that is no constant.
fn region_if(
    alloc: Global,
    s: &Scope<'_>,
    shared: &SharedItem,
    name: &WrittenName<'_>,
) -> Result<Option<RegionDecl>, NoMemory>
    ensures { IfOk result (λ r. region_when (written_of name.now).constant r s.now shared.now.kind (written_of name.now)) }
{
    if name.is_constant() {
        Ok(None)
    } else {
        let region = region_of(alloc, s, &shared.kind, name)?;
        Ok(Some(region))
    }
}

/// Adds a region, where there is one.
fn add_region(regions: &mut Items<RegionDecl>, region: Option<RegionDecl>) -> Result<(), NoMemory>
    ensures { OnOk result (regions.new ≡ regions.old ++ made region) }
{
    match region {
        Some(region) => {
            regions.push(region)?;
            Ok(())
        }
        None => Ok(()),
    }
}

/// Checks a global of an item that was checked: the least rule that it breaks among the regions before it, at its least line. The region
/// that it makes comes behind those.
pub fn check_global(
    alloc: Global,
    tables: &UnitTables<'_>,
    s: &Scope<'_>,
    regions: &mut CheckedRegions,
    shared: &SharedItem,
    name: &WrittenName<'_>,
) -> Result<Option<(Code, u32)>, NoMemory>
    requires scope { s.now ≡ rules.unit tables.now.decls }
    requires shared { ChecksShared shared.now tables.now.decls name.now.section.now name.now.item.now }
    ensures fault { IfOk result (λ f. (before : List Region) → HasRegions regions.old tables.now.decls before → f ≡ least (rules.global_faults tables.now.decls before (global_of name.now))) }
    ensures regions { OnOk result ((before : List Region) → HasRegions regions.old tables.now.decls before → HasRegions regions.new tables.now.decls (before ++ region_of_global (written_of name.now))) }
{
    let region = region_if(alloc, s, shared, name)?;
    add_region(&mut regions.regions, region)?;
    let own = own_fault(shared, name);
    let sizes = tables.sizes();
    let fault = regions.taken.take_global(sizes, name, &shared.kind);
    Ok(earlier(own, fault))
}
