//! Which code is valid.

ghost use Rattle.stack_code.specs.Validity.{BodiesFinish, HooksFinish};

/// Every run of valid code ends, and none for want of an operand, of one of the right kind, or of an instruction.
pub fn valid_run_laws()
    ensures bodies { BodiesFinish }
    ensures hooks { HooksFinish }
{}
