//! Code of a checked program is valid.

ghost use Rattle.valid_programs.specs.Laws.{AlikePlans, ProgramCode, ProgramValidity};

/// The code of a program that is right is valid, and by plans that are as good as its own it is the program's
/// code; a plan that is alike is as good.
pub fn valid_program_laws()
    ensures valid { ProgramValidity }
    ensures told { ProgramCode }
    ensures alike { AlikePlans }
{}
