//! What judges program texts in code.

ghost use Rattle.std.specs.Prelude.{◌≡◌, ℕ, List, IfOk, IfErr};
ghost use Rattle.st_values.specs.Program.{Program as PlainProgram};
ghost use Rattle.st_values.specs.View.{program_of};
ghost use Rattle.st_tree.specs.declared.program.Program.{Program as CheckedProgram};
ghost use Rattle.console_command.specs.Checker.{OnRefused, IsKept};

use plc_text::{Denied, Text};
use st_change::Judge;
use st_tree::Program;
use std::alloc::Global;

/// What judges program texts: each text gets the program that it is accepted as, or its refusal.
pub trait Checker: Judge {
    /// A text is accepted, as this checked program.
    ghost holds: { List ℕ → CheckedProgram → Type 0 };

    /// The program that a text is accepted as, or with what it is refused.
    fn check(alloc: Global, text: &Text) -> Result<Program, Denied>
        ensures held { IfOk result (λ program. Self.holds text.now program) }
        ensures accepted { IfOk result (λ program. Self.accepts text.now (program_of program)) }
        ensures refused { IfErr result (λ denied. OnRefused denied (Self.refuses text.now)) };

    /// It is accepted as one at most.
    ghost one: { (text : List ℕ) (p q : CheckedProgram) → holds text p → holds text q → p ≡ q };

    /// Its meaning is that of the program.
    ghost seen: { (text : List ℕ) (p : CheckedProgram) → holds text p → Self.accepts text (program_of p) };

    /// What each accepted program keeps.
    ghost kept: { (text : List ℕ) (p : PlainProgram) → Self.accepts text p → IsKept p };
}
