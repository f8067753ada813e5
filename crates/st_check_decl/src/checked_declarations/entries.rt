//! Entries of TYPE.

ghost use Rattle.std.specs.Prelude.{◌≡◌, [], IfErr, OnOk};
ghost use Rattle.st_unit_rules.specs.declared_names.Declarations.{an_entry};
ghost use Rattle.st_unit_rules.specs.DeclarationRules as rules;
ghost use Rattle.st_unit_rules.specs.passing_laws.Passing.{At, faults_here, with_any};
ghost use Rattle.st_check_decl.specs.checked_declarations.SoFar.{Breaks, Passed};

use crate::checked_declarations::so_far::{Bad, CheckedSoFar, settle};
use check_declared_variables::{CheckedEntry, check_entry};
use name_resolution::Scope;
use st_rules::earlier;
use st_tree::TypeDecl;
use st_unit_rules::declaration_list::Declared;
use std::alloc::Global;
use symbol_table::unit_tables::UnitTables;

/// Checks an entry of TYPE behind what was checked, in the scope of the unit.
pub fn pass_entry(
    alloc: Global,
    tables: &UnitTables<'_>,
    s: &Scope<'_>,
    x: &mut CheckedSoFar,
    entry: &TypeDecl<u32>,
) -> Result<(), Bad>
    requires { s.now ≡ rules.unit tables.now.decls }
    ensures passed { OnOk result ((a : At) → Passed x.old tables.now.decls a → (faults_here tables.now.decls a (an_entry entry.now) ≡ []) × Passed x.new tables.now.decls (with_any a (an_entry entry.now))) }
    ensures bad { IfErr result (λ b. (a : At) → Passed x.old tables.now.decls a → Breaks b tables.now.decls a (an_entry entry.now)) }
{
    let declared = Declared::Entry(entry);
    let common = x.before.common_fault(tables.graph(), &declared);
    let place = x.before.count;
    let number = x.before.entries;
    let found = check_entry(
        alloc,
        s,
        tables.sizes(),
        tables.graph(),
        place,
        number,
        entry,
    )?;
    let CheckedEntry { least, entry: tree } = found;
    x.trees.add_entry(tree)?;
    settle(alloc, &mut x.before, &declared, earlier(common, least))?;
    Ok(())
}
