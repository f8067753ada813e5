//! A unit or a program for clauses alone, for tables that were made from it. It holds no type of the tree, so none that holds it reaches the tree's types.

ghost use Rattle.std.specs.Prelude.{◌≡◌};
ghost use Rattle.std.specs.Borrow.{ftrue};
ghost use Rattle.st_tree.specs.declared.unit.Unit.{Unit as AUnit};
ghost use Rattle.st_tree.specs.declared.program.Program.{Program as AProgram};
ghost use Rattle.st_tree.specs.contracts.unit.Unit as unit_type;
ghost use Rattle.st_tree.specs.contracts.program.Program as program_type;

use crate::program::Program;
use crate::unit::Unit;
use std::marker::{Model, PhantomData};

/// It has no bytes and owns nothing, so only a clause ties `value`.
#[derive(Drop)]
pub struct SeenUnit {
    marker: PhantomData<()>,
    pub ghost value: { AUnit } by { unit_type.the_row.coded },
}

impl Model for SeenUnit {
    ghost also_owns = { λ _. ftrue };
}

impl SeenUnit {
    pub fn of(unit: &Unit) -> SeenUnit
        ensures { result.value ≡ unit.now }
    {
        let _ = unit;
        SeenUnit {
            marker: PhantomData,
        }
    }
}

/// It has no bytes and owns nothing, so only a clause ties `value`.
#[derive(Drop)]
pub struct SeenProgram {
    marker: PhantomData<()>,
    pub ghost value: { AProgram } by { program_type.the_row.coded },
}

impl Model for SeenProgram {
    ghost also_owns = { λ _. ftrue };
}

impl SeenProgram {
    pub fn of(program: &Program) -> SeenProgram
        ensures { result.value ≡ program.now }
    {
        let _ = program;
        SeenProgram {
            marker: PhantomData,
        }
    }
}
