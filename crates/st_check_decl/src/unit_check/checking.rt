//! A whole unit.

ghost use Rattle.std.specs.Prelude.{◌≡◌, [], None, false, IfErr, IfOk};
ghost use Rattle.st_rules.specs.Classes.{classes_in};
ghost use Rattle.check_names.specs.member_names.Known.{Knows};
ghost use Rattle.st_unit_rules.specs.passing_laws.Passing.{AllDeclsGood, no_declarations};
ghost use Rattle.st_unit_rules.specs.passing_laws.PassingLaws.{all_of};
ghost use Rattle.st_unit_rules.specs.Checked.{IsChecked};
ghost use Rattle.st_unit_rules.specs.RefusalLaws.{IsGood};
ghost use Rattle.st_unit_rules.specs.UnitRefusal.{IsFirstBad, UnitRefusal};
ghost use Rattle.symbol_table.specs.unit_tables.Scopes.{scope_in};
ghost use Rattle.st_check_decl.specs.unit_check.Checking.{OnRefused};
ghost use Rattle.st_check_decl.specs.unit_check.Private.Progress.{Reached};
ghost use Rattle.st_check_decl.specs.unit_check.Private.Refused.{IfRule};
ghost use Rattle.st_check_decl.specs.unit_check.Private.Side.{ServesUnit};

use crate::checked_declarations::{Bad, ClassSide};
use crate::unit_check::declarations::pass_decls;
use crate::unit_check::program::finish;
use crate::unit_check::progress::{Progress, nothing_checked};
use crate::unit_check::refused::denied_by;
use crate::unit_check::side::CheckSide;
use check_configurations::UnitPrograms;
use check_limits::InterfaceHeights;
use check_names::member_names::MemberNames;
use check_signatures::unit_signatures::unit_signatures;
use name_resolution::Scope;
use plc_text::Denied;
use st_tree::{Decl, Program, Unit};
use std::alloc::Global;
use symbol_table::unit_tables::UnitTables;

/// Checks all declarations of a unit.
fn pass_unit(alloc: Global, side: &CheckSide<'_, '_>, decls: &[Decl<u32>]) -> Result<Progress, Bad>
    requires side { ServesUnit side.now }
    requires unit { decls.now ≡ side.now.tables.now.decls }
    ensures good { IfOk result (λ p. AllDeclsGood decls.now no_declarations decls.now × Reached p decls.now (all_of decls.now)) }
    ensures bad { IfErr result (λ b. IfRule b (IsFirstBad decls.now)) }
{
    let mut progress = nothing_checked(alloc)?;
    pass_decls(alloc, side, &mut progress, decls)?;
    Ok(progress)
}

/// Checks a unit by its tables.
fn check_by(alloc: Global, side: &CheckSide<'_, '_>, decls: &[Decl<u32>]) -> Result<Program, Denied>
    requires side { ServesUnit side.now }
    requires unit { decls.now ≡ side.now.tables.now.decls }
    ensures ok { IfOk result (λ p. IsGood decls.now × IsChecked decls.now p) }
    ensures err { IfErr result (λ e. OnRefused e (λ r. UnitRefusal decls.now r.code r.declaration r.line)) }
{
    match pass_unit(alloc, side, decls) {
        Ok(progress) => finish(alloc, decls, progress),
        Err(bad) => Err(denied_by(decls, bad)),
    }
}

/// Checks a unit in its scope, by its tables, the heights of its interfaces and the names of its classes' members.
fn check_beside<'a>(
    alloc: Global,
    unit: &Unit,
    tables: &'a UnitTables<'_>,
    scope: &'a Scope<'a>,
    heights: &'a InterfaceHeights,
    names: &'a MemberNames,
) -> Result<Program, Denied>
    requires tables { tables.now ≡ unit.now }
    requires scope { scope.now ≡ scope_in tables.now.decls None false [] }
    requires heights { heights.now ≡ unit.now }
    requires names { Knows names.now (classes_in unit.now.decls) }
    ensures ok { IfOk result (λ p. IsGood unit.now.decls × IsChecked unit.now.decls p) }
    ensures err { IfErr result (λ e. OnRefused e (λ r. UnitRefusal unit.now.decls r.code r.declaration r.line)) }
{
    let programs = UnitPrograms::build(alloc, tables)?;
    let signatures = unit_signatures(alloc, tables)?;
    let side = CheckSide {
        tables,
        scope,
        programs: &programs,
        classes: ClassSide {
            names,
            signatures: &signatures,
        },
        heights,
    };
    check_by(alloc, &side, unit.decls.as_slice())
}

/// Checks a unit in its scope, by its tables.
fn check_in<'a>(
    alloc: Global,
    unit: &Unit,
    tables: &'a UnitTables<'_>,
    scope: &'a Scope<'a>,
) -> Result<Program, Denied>
    requires tables { tables.now ≡ unit.now }
    requires scope { scope.now ≡ scope_in tables.now.decls None false [] }
    ensures ok { IfOk result (λ p. IsGood unit.now.decls × IsChecked unit.now.decls p) }
    ensures err { IfErr result (λ e. OnRefused e (λ r. UnitRefusal unit.now.decls r.code r.declaration r.line)) }
{
    let decls = unit.decls.as_slice();
    let heights = InterfaceHeights::build(alloc, unit, tables.class_tables())?;
    let names = MemberNames::build(alloc, decls)?;
    check_beside(alloc, unit, tables, scope, &heights, &names)
}

/// Checks a unit: its checked program, or why it is refused: the name of its first bad declaration, with the least rule that it breaks at
/// its least line; E15 for `-` at line 1, where all are good and there is no CONFIGURATION. It takes time linear in the unit but for what
/// `unit_names` and `unit_signatures` say, and for initial values that many globals of one item share: each has one of its own.
pub fn check(alloc: Global, unit: &Unit) -> Result<Program, Denied>
    ensures ok { IfOk result (λ p. IsGood unit.now.decls × IsChecked unit.now.decls p) }
    ensures err { IfErr result (λ e. OnRefused e (λ r. UnitRefusal unit.now.decls r.code r.declaration r.line)) }
{
    let tables = UnitTables::build(alloc, unit)?;
    let scope = tables.scope(alloc, None, false, &[])?;
    check_in(alloc, unit, &tables, &scope)
}
