//! Valid code, with its tables by what they are asked for.

ghost use Rattle.std.specs.Prelude.{◌≡◌, IfOk, SomeIff};
ghost use Rattle.stack_code.specs.Steps.{some_or_stuck};
ghost use Rattle.stack_code.specs.Machine.{first_target, in_slot, conforms};
ghost use Rattle.stack_code.specs.Validity.{IsValid};

use crate::MachineCode;
use crate::valid_code::calls::in_slot;
use crate::valid_code::tables::{Implemented, Pair, implementations, pairs};
use crate::valid_code::validity::is_valid;
use plc_text::NoMemory;
use std::alloc::Global;
use std::collections::{HashMap, HashSet};
use std::marker::Model;

/// Valid code. A contract sees it as the code.
#[derive(Drop)]
pub struct ValidCode {
    code: MachineCode,
    conforming: HashSet<Pair>,
    implementations: HashMap<Implemented, u32>,
}

impl Model for ValidCode {
    ghost use Rattle.stack_code.specs.declared.code.MachineCode.{MachineCode};
    ghost use Rattle.stack_code.specs.valid_code.Private.Indexed.{IsIndexed};

    ghost Value = { MachineCode };

    ghost view = { λ v. v.code };

    ghost invariant = { λ v. IsIndexed v.code v.conforming v.implementations };
}

impl ValidCode {
    pub fn code(&self) -> &MachineCode
        ensures same { result.now ≡ self.now }
        ensures valid { IsValid self.now }
    {
        &self.code
    }

    /// Whether a class conforms to a target: a class has its own number as a target, an interface the number of
    /// classes and its own.
    pub fn conforms(&self, class: u32, target: u32) -> bool
        ensures { result ≡ conforms self.now class target }
    {
        self.conforming.contains(&(class, target))
    }

    /// The routine in a slot of a class.
    pub fn slot(&self, class: u32, slot: u32) -> Option<u32>
        ensures { some_or_stuck result ≡ in_slot self.now class slot }
    {
        in_slot(&self.code, class, slot)
    }

    /// The routine by which a class implements a method of an interface.
    pub fn target(&self, class: u32, interface: u32, method: u32) -> Option<u32>
        ensures { result ≡ first_target self.now.targets class interface method }
    {
        self.implementations
            .get(&(class, (interface, method)))
            .copied()
    }
}

/// The same code where it is valid, else None. Takes time linear in the code, and for each method that a call names
/// through a class, in the classes that conform to it.
pub fn validate(alloc: Global, code: MachineCode) -> Result<Option<ValidCode>, NoMemory>
    ensures { IfOk result (λ valid. SomeIff valid (IsValid code) code) }
{
    let implementations = implementations(alloc, code.targets.as_slice())?;
    if !is_valid(alloc, &code, &implementations)? {
        return Ok(None);
    }
    let conforming = pairs(alloc, code.conforms.as_slice())?;
    Ok(Some(ValidCode {
        code,
        conforming,
        implementations,
    }))
}
