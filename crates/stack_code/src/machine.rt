//! What a run of the stack machine comes to.

ghost use Rattle.std.specs.Prelude.{ℕ, Bool, List, Option};
ghost use Rattle.stack_code.specs.declared.memory.Address.{Address};
ghost use Rattle.stack_code.specs.declared.code.MachineCode.{MachineCode};
ghost use Rattle.stack_code.specs.Machine.{machine, hook, HasOneResult};

use crate::memory::Address;
use plc_text::Fault;

/// Where a call stands.
#[derive(Clone, Copy)]
pub struct Frame {
    /// The number of its routine.
    pub routine: u32,
    /// The number of its next instruction.
    pub next: u32,
    /// Its own instance.
    pub own: Option<Address>,
}

/// How a run ends.
#[derive(Clone, Copy)]
pub enum Outcome {
    /// The ticks that are left.
    Done(u32),
    Fault(Fault),
}

/// Why a run does not go on.
#[derive(Clone, Copy)]
pub enum Ending {
    Ended(Outcome),
    /// A read, a write, an address or a call for which there is nothing.
    Stuck,
    /// An operand that is missing or of the wrong kind, or a jump that leaves the routine.
    Broken,
}

/// A run of a program instance's body ends in one way at most, and so does a hook.
pub fn run_laws()
    ensures bodies { (code : MachineCode) (regions : List (Option (List ℕ))) (entry now ticks : ℕ) → HasOneResult (machine code regions entry now ticks) }
    ensures hooks { (code : MachineCode) (regions : List (Option (List ℕ))) (k : ℕ) (own : Address) (first second : Bool) (ticks : ℕ) → HasOneResult (hook code regions k own first second ticks) }
{}
