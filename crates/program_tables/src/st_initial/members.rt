//! The variables of all structures, classes and programs of a program, each list found once.

ghost use Rattle.std.specs.Prelude.{◌≡◌, ◌≤◌, ◌+◌, ℕ, length, IfOk, IfSome};
ghost use Rattle.st_values.specs.Program.{class_variables};
ghost use Rattle.st_values.specs.View.{program_of};
ghost use Rattle.program_tables.specs.st_initial.Variables.{fields_at};
ghost use Rattle.program_tables.specs.st_initial.Members.{Holds, list_at};

use crate::ProgramTables;
use crate::st_initial::variables;
use crate::st_initial::variables::Variable;
use plc_text::{Items, NoMemory, narrowed};
use st_tree::Program;
use std::alloc::Global;

/// The variables of each structure, by the number of its type, and of each class and program, those of its bases first.
#[derive(Drop)]
pub struct Members<'p> {
    pub structures: Items<Items<Variable<'p>>>,
    pub classes: Items<Items<Variable<'p>>>,
}

#[tactic(auto, using(crate::proofs::st_initial::TableLaws::no_lists, crate::proofs::st_initial::TableLaws::one_list, crate::proofs::st_initial::TableLaws::all_lists, crate::proofs::st_initial::TableLaws::no_fields_past))]
fn structures(alloc: Global, program: &Program) -> Result<Items<Items<Variable<'_>>>, NoMemory>
    ensures each { IfOk result (λ all. (n : ℕ) → list_at all n ≡ fields_at (program_of program.now) n) }
    ensures all { IfOk result (λ all. length (program_of program.now).types ≤ length all) }
{
    let mut all = Items::new(alloc);
    for n in 0..program.types.len() {
        let fields = variables::structure_fields(alloc, program, n)?;
        all.push(Items::from_vec(fields))?;
    }
    Ok(all)
}

/// How many classes and programs there are.
fn count(program: &Program) -> Option<usize>
    ensures { IfSome result (λ n. n ≡ length program.now.classes + length program.now.programs) }
{
    program.classes.len().checked_add(program.programs.len())
}

fn classes(alloc: Global, program: &Program) -> Result<Items<Items<Variable<'_>>>, NoMemory>
    ensures each { IfOk result (λ all. (c : ℕ) → list_at all c ≡ class_variables (program_of program.now) c) }
    ensures all { IfOk result (λ all. length (program_of program.now).classes ≤ length all) }
{
    let Some(end) = count(program) else {
        return Err(NoMemory);
    };
    let tables = ProgramTables::build(alloc, program)?;
    let mut all = Items::new(alloc);
    for c in 0..end {
        let class = narrowed(c)?;
        let variables = variables::instance_variables(alloc, &tables, program, class)?;
        all.push(Items::from_vec(variables))?;
    }
    Ok(all)
}

/// The variables of all that the program declares.
pub fn members_of(alloc: Global, program: &Program) -> Result<Members<'_>, NoMemory>
    ensures { IfOk result (λ members. Holds (program_of program.now) members) }
{
    let structures = structures(alloc, program)?;
    let classes = classes(alloc, program)?;
    Ok(Members {
        structures,
        classes,
    })
}
