//! The variables that each class and each program declares itself.

ghost use Rattle.std.specs.Prelude.{◌≡◌, ◌+◌, ℕ, length, IfOk, IfSome};
ghost use Rattle.st_values.specs.Program.{class_at, own_of};
ghost use Rattle.st_values.specs.View as view;
ghost use Rattle.program_tables.specs.st_initial.Members.{list_at};
ghost use Rattle.program_tables.specs.st_initial.Variables.{variables_of};

use plc_text::{Items, NoMemory};
use program_tables::{Variable, push_own};
use st_tree::Program;
use std::alloc::Global;

/// The variables that a class or a program declares itself.
fn own_variables(
    alloc: Global,
    program: &Program,
    class: usize,
) -> Result<Vec<Variable<'_>>, NoMemory>
    ensures { IfOk result (λ own. variables_of own.items ≡ own_of (class_at (view.program_of program.now) class)) }
{
    let mut out = Vec::new(alloc);
    push_own(&mut out, program, class)?;
    Ok(out)
}

/// How many classes and programs there are.
fn count(program: &Program) -> Option<usize>
    ensures { IfSome result (λ n. n ≡ length program.now.classes + length program.now.programs) }
{
    program.classes.len().checked_add(program.programs.len())
}

/// The variables that each class and each program declares itself, by its number.
pub fn own_lists(alloc: Global, program: &Program) -> Result<Items<Items<Variable<'_>>>, NoMemory>
    ensures { IfOk result (λ all. (c : ℕ) → list_at all c ≡ own_of (class_at (view.program_of program.now) c)) }
{
    let Some(end) = count(program) else {
        return Err(NoMemory);
    };
    let mut all = Items::new(alloc);
    for c in 0..end {
        let own = own_variables(alloc, program, c)?;
        all.push(Items::from_vec(own))?;
    }
    Ok(all)
}
