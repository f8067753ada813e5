//! Interfaces.

ghost use Rattle.std.specs.Prelude.{◌≡◌, [], IfErr, OnOk};
ghost use Rattle.st_unit_rules.specs.declared_names.Declarations.{an_interface};
ghost use Rattle.st_unit_rules.specs.passing_laws.Passing.{At, faults_here, with_any};
ghost use Rattle.st_check_decl.specs.checked_declarations.SoFar.{Breaks, Passed};

use crate::checked_declarations::so_far::{Bad, CheckedSoFar, settle};
use check_classes::{CheckedInterface, check_interface};
use check_limits::InterfaceHeights;
use st_rules::earlier;
use st_tree::InterfaceDecl;
use st_unit_rules::declaration_list::Declared;
use std::alloc::Global;
use symbol_table::unit_tables::UnitTables;

/// Checks an interface behind what was checked.
pub fn pass_interface(
    alloc: Global,
    tables: &UnitTables<'_>,
    heights: &InterfaceHeights,
    x: &mut CheckedSoFar,
    interface: &InterfaceDecl<u32>,
) -> Result<(), Bad>
    requires { heights.now ≡ tables.now }
    ensures passed { OnOk result ((a : At) → Passed x.old tables.now.decls a → (faults_here tables.now.decls a (an_interface interface.now) ≡ []) × Passed x.new tables.now.decls (with_any a (an_interface interface.now))) }
    ensures bad { IfErr result (λ b. (a : At) → Passed x.old tables.now.decls a → Breaks b tables.now.decls a (an_interface interface.now)) }
{
    let declared = Declared::Interface(interface);
    let common = x.before.common_fault(tables.graph(), &declared);
    let found = check_interface(alloc, tables, heights, x.before.interfaces, interface)?;
    let CheckedInterface {
        least,
        interface: tree,
    } = found;
    x.trees.add_interface(tree)?;
    settle(alloc, &mut x.before, &declared, earlier(common, least))?;
    Ok(())
}
