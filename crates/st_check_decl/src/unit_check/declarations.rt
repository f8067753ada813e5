//! The declarations of a unit's text, one after the other.

ghost use Rattle.std.specs.Prelude.{◌≡◌, map, IfErr, OnOk};
ghost use Rattle.st_unit_rules.specs.declared_names.Declarations.{an_entry};
ghost use Rattle.st_check_decl.specs.unit_check.Private.Progress.{AllFail, AllPass, DeclFails, DeclPasses, DeclsFail, DeclsPass};
ghost use Rattle.st_check_decl.specs.unit_check.Private.Side.{ServesUnit};

use crate::checked_declarations::{
    Bad, CheckedSoFar, pass_class, pass_entry, pass_function, pass_interface, pass_program,
};
use crate::unit_check::configurations::{pass_section, pass_whole_configuration};
use crate::unit_check::progress::Progress;
use crate::unit_check::side::CheckSide;
use st_tree::{Decl, TypeDecl};
use std::alloc::Global;

/// Passes entries of TYPE.
fn pass_entries(
    alloc: Global,
    side: &CheckSide<'_, '_>,
    x: &mut CheckedSoFar,
    entries: &[TypeDecl<u32>],
) -> Result<(), Bad>
    requires { ServesUnit side.now }
    ensures passed { OnOk result (AllPass x.old x.new side.now.tables.now.decls (map an_entry entries.now)) }
    ensures bad { IfErr result (λ b. AllFail b x.old side.now.tables.now.decls (map an_entry entries.now)) }
{
    for entry in entries {
        pass_entry(alloc, side.tables, side.scope, x, entry)?;
    }
    Ok(())
}

/// Passes what one declaration of the text declares.
fn pass_decl(
    alloc: Global,
    side: &CheckSide<'_, '_>,
    p: &mut Progress,
    decl: &Decl<u32>,
) -> Result<(), Bad>
    requires { ServesUnit side.now }
    ensures passed { OnOk result (DeclPasses p.old p.new side.now.tables.now.decls decl.now) }
    ensures bad { IfErr result (λ b. DeclFails b p.old side.now.tables.now.decls decl.now) }
{
    let tables = side.tables;
    match decl {
        Decl::Types(_, entries) => {
            pass_entries(alloc, side, &mut p.declarations, entries.as_slice())?;
            Ok(())
        }
        Decl::Globals(section) => {
            pass_section(alloc, side, p, section)?;
            Ok(())
        }
        Decl::Interface(d) => {
            pass_interface(alloc, tables, side.heights, &mut p.declarations, d)?;
            Ok(())
        }
        Decl::Class(d) => {
            pass_class(alloc, tables, &side.classes, &mut p.declarations, d)?;
            Ok(())
        }
        Decl::Function(d) => {
            pass_function(alloc, tables, &mut p.declarations, d)?;
            Ok(())
        }
        Decl::Program(d) => {
            pass_program(alloc, tables, &mut p.declarations, d)?;
            Ok(())
        }
        Decl::Configuration(d) => {
            pass_whole_configuration(alloc, side, p, d)?;
            Ok(())
        }
    }
}

/// Passes the declarations of a unit's text.
pub fn pass_decls(
    alloc: Global,
    side: &CheckSide<'_, '_>,
    p: &mut Progress,
    decls: &[Decl<u32>],
) -> Result<(), Bad>
    requires { ServesUnit side.now }
    ensures passed { OnOk result (DeclsPass p.old p.new side.now.tables.now.decls decls.now) }
    ensures bad { IfErr result (λ b. DeclsFail b p.old side.now.tables.now.decls decls.now) }
{
    for decl in decls {
        pass_decl(alloc, side, p, decl)?;
    }
    Ok(())
}
