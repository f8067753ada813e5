//! Functions and programs.

ghost use Rattle.std.specs.Prelude.{◌≡◌, [], IfErr, OnOk};
ghost use Rattle.st_unit_rules.specs.declared_names.Declarations.{a_function, a_program};
ghost use Rattle.st_unit_rules.specs.passing_laws.Passing.{At, faults_here, with_any};
ghost use Rattle.st_check_decl.specs.checked_declarations.SoFar.{Breaks, Passed};

use crate::checked_declarations::so_far::{Bad, CheckedSoFar, settle};
use check_routines::{CheckedFunction, CheckedProgram, check_function, check_program};
use st_rules::earlier;
use st_tree::{FunctionDecl, ProgramDecl};
use st_unit_rules::declaration_list::Declared;
use std::alloc::Global;
use symbol_table::unit_tables::UnitTables;

/// Checks a function behind what was checked.
pub fn pass_function(
    alloc: Global,
    tables: &UnitTables<'_>,
    x: &mut CheckedSoFar,
    function: &FunctionDecl<u32>,
) -> Result<(), Bad>
    ensures passed { OnOk result ((a : At) → Passed x.old tables.now.decls a → (faults_here tables.now.decls a (a_function function.now) ≡ []) × Passed x.new tables.now.decls (with_any a (a_function function.now))) }
    ensures bad { IfErr result (λ b. (a : At) → Passed x.old tables.now.decls a → Breaks b tables.now.decls a (a_function function.now)) }
{
    let declared = Declared::Function(function);
    let common = x.before.common_fault(tables.graph(), &declared);
    let found = check_function(alloc, tables, function)?;
    let CheckedFunction {
        least,
        function: tree,
    } = found;
    x.trees.add_function(tree)?;
    settle(alloc, &mut x.before, &declared, earlier(common, least))?;
    Ok(())
}

/// Checks a program behind what was checked.
pub fn pass_program(
    alloc: Global,
    tables: &UnitTables<'_>,
    x: &mut CheckedSoFar,
    program: &ProgramDecl<u32>,
) -> Result<(), Bad>
    ensures passed { OnOk result ((a : At) → Passed x.old tables.now.decls a → (faults_here tables.now.decls a (a_program program.now) ≡ []) × Passed x.new tables.now.decls (with_any a (a_program program.now))) }
    ensures bad { IfErr result (λ b. (a : At) → Passed x.old tables.now.decls a → Breaks b tables.now.decls a (a_program program.now)) }
{
    let declared = Declared::Program(program);
    let common = x.before.common_fault(tables.graph(), &declared);
    let found = check_program(alloc, tables, program)?;
    let CheckedProgram {
        least,
        program: tree,
    } = found;
    x.trees.add_program(tree)?;
    settle(alloc, &mut x.before, &declared, earlier(common, least))?;
    Ok(())
}
