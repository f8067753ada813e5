//! The law of cells: a routine that they become is valid.

ghost use Rattle.std.specs.Prelude.{◌≡◌, [], List};
ghost use Rattle.stack_code.specs.declared.code.MachineCode.{MachineCode as AMachineCode};
ghost use Rattle.stack_code.specs.declared.code.RoutineCode.{RoutineCode as ARoutineCode};
ghost use Rattle.stack_code.specs.Validity.{IsValidRoutine};
ghost use Rattle.code_cells.specs.declared.cell.Cell.{Cell as ACell};
ghost use Rattle.code_cells.specs.Settled.{EntersCalled, Settles, Whole};

/// A routine whose instructions, lines and kinds are those of cells that fit is valid.
pub fn routine_laws()
    ensures valid { (code : AMachineCode) (r : ARoutineCode) (cells : List ACell) → r.rets ≡ [] → EntersCalled code r → Settles r cells → Whole cells → IsValidRoutine code r }
{}
