//! Classes and function blocks.

ghost use Rattle.std.specs.Prelude.{◌≡◌, [], IfErr, OnOk};
ghost use Rattle.st_rules.specs.Classes.{classes_in};
ghost use Rattle.st_rules.specs.Faults.{least};
ghost use Rattle.st_unit_rules.specs.declared_names.Declarations.{a_class};
ghost use Rattle.check_names.specs.member_names.Known.{Knows};
ghost use Rattle.default_values.specs.numbered_signatures.Signatures.{Tells};
ghost use Rattle.st_unit_rules.specs.DeclarationRules as rules;
ghost use Rattle.st_unit_rules.specs.Limits as limits;
ghost use Rattle.st_unit_rules.specs.passing_laws.Passing.{At, faults_here, with_any};
ghost use Rattle.st_check_decl.specs.checked_declarations.SoFar.{Breaks, Passed};

use crate::checked_declarations::so_far::{Bad, CheckedSoFar, settle};
use check_classes::{CheckedClass, ClassSide, check_class};
use plc_text::Code;
use st_rules::{earlier, when};
use st_tree::ClassDecl;
use st_unit_rules::declaration_list::Declared;
use std::alloc::Global;
use symbol_table::unit_tables::UnitTables;

/// A unit has at most so many classes and function blocks.
const CLASSES: u32 = 1_024;

/// E16 at the line of a class behind so many that one more is too many.
fn too_many_classes(line: u32, before: u32) -> Option<(Code, u32)>
    ensures { result ≡ least (limits.too_many_classes line before) }
{
    when(before == CLASSES, Code::E16, line)
}

/// Checks a class or a function block behind what was checked.
pub fn pass_class(
    alloc: Global,
    tables: &UnitTables<'_>,
    side: &ClassSide<'_>,
    x: &mut CheckedSoFar,
    class: &ClassDecl<u32>,
) -> Result<(), Bad>
    requires names { Knows side.now.names.now (classes_in tables.now.decls) }
    requires signatures { Tells side.now.signatures.now.worths side.now.signatures.now.signatures (rules.signatures tables.now.decls) }
    ensures passed { OnOk result ((a : At) → Passed x.old tables.now.decls a → (faults_here tables.now.decls a (a_class class.now) ≡ []) × Passed x.new tables.now.decls (with_any a (a_class class.now))) }
    ensures bad { IfErr result (λ b. (a : At) → Passed x.old tables.now.decls a → Breaks b tables.now.decls a (a_class class.now)) }
{
    let declared = Declared::Class(class);
    let common = x.before.common_fault(tables.graph(), &declared);
    let place = x.before.count;
    let number = x.before.classes;
    let many = too_many_classes(class.line, number);
    let found = check_class(alloc, tables, side, place, number, class)?;
    let CheckedClass { least, class: tree } = found;
    let own = earlier(least, many);
    x.trees.add_class(tree)?;
    settle(alloc, &mut x.before, &declared, earlier(common, own))?;
    Ok(())
}
