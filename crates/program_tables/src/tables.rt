//! What a checked program calls, by numbers and names.

ghost use Rattle.std.specs.Prelude.{◌≡◌, length, option_map, slice_get, IfOk};
ghost use Rattle.st_rules.specs.Interfaces.{extended};
ghost use Rattle.st_values.specs.Program as plain;
ghost use Rattle.st_values.specs.View.{program_of};
ghost use Rattle.program_tables.specs.Interfaces.{is_extended};
ghost use Rattle.program_tables.specs.Routine.{routine_of};

use crate::parts::{self, Tables, tables_of};
use crate::routine::RoutineId;
use plc_text::{NoMemory, Text};
use st_tree::{Program, SeenProgram};
use st_types::StType;
use std::alloc::Global;
use std::marker::Model;

/// The tables of a program, which contracts see as the program. Classes are told by their numbers, from 0 in the order of the text,
/// function blocks among them and programs behind them. What a name means is decided on cycles of bases too, which no program has
/// that the checker accepted.
pub struct ProgramTables {
    of: SeenProgram,
    tables: Tables,
}

// By hand, so that a drop is one call: a derived one is written out wherever a `?` may need it.
impl Drop for ProgramTables {
    fn drop(self) {
        let ProgramTables { of: _, tables: _ } = self;
    }
}

impl Model for ProgramTables {
    ghost use Rattle.st_tree.specs.declared.program.Program.{Program};

    ghost Value = { Program };

    ghost use Rattle.st_tree.specs.contracts.program.Program as program_type;

    ghost coded = { program_type.the_row.coded };

    ghost use Rattle.program_tables.specs.Private.Tables.{AreTables};

    ghost view = { λ t. t.of.value };

    ghost invariant = { λ t. AreTables t.of.value t.tables };
}

impl ProgramTables {
    /// The tables of a program.
    pub fn build(alloc: Global, program: &Program) -> Result<ProgramTables, NoMemory>
        ensures { IfOk result (λ tables. tables ≡ program.now) }
    {
        let tables = tables_of(alloc, program)?;
        Ok(ProgramTables {
            of: SeenProgram::of(program),
            tables,
        })
    }

    /// How many classes and programs there are.
    pub fn class_count(&self) -> usize
        ensures { result ≡ length (program_of self.now).classes }
    {
        self.tables.classes
    }

    /// The number of the class or program of this name: the first one.
    pub fn class_number(&self, name: &Text) -> Option<u32>
        ensures { result ≡ plain.class_number (program_of self.now) name.now }
    {
        parts::class_number(&self.tables, name)
    }

    /// The chain of a class: the class, its base and so on. That of a program is the program alone; where there is neither, it is empty.
    pub fn chain(&self, alloc: Global, class: u32) -> Result<Vec<u32>, NoMemory>
        ensures { IfOk result (λ chain. chain.items ≡ plain.chain_of (plain.class_at (program_of self.now) class)) }
    {
        let chain = parts::chain(alloc, &self.tables, class)?;
        Ok(chain)
    }

    /// Whether a class conforms to a class, an interface or a reference to a class.
    pub fn conforms(&self, class: u32, kind: &StType) -> bool
        ensures { result ≡ plain.conforms (program_of self.now) class kind.now }
    {
        parts::conforms(&self.tables, class, kind)
    }

    /// The interfaces behind EXTENDS of an interface, in written order, where they are found.
    pub fn extended(&self, interface: u32) -> &[u32]
        ensures { result.now ≡ extended self.now.interfaces interface }
    {
        parts::extended(&self.tables, interface)
    }

    /// Whether an interface of the program is another one of its interfaces or extends it, in any number of steps.
    pub fn extends(&self, interface: u32, other: u32) -> bool
        ensures { result ≡ is_extended self.now.interfaces interface other }
    {
        parts::extends(&self.tables, interface, other)
    }

    /// The function of this number.
    pub fn function(&self, number: u32) -> Option<RoutineId>
        ensures { option_map (routine_of self.now) result ≡ slice_get (program_of self.now).functions number }
    {
        parts::function(&self.tables, number)
    }

    /// The method that a name means in a class: the nearest one of that name in the chain of the class.
    pub fn lookup(&self, class: u32, name: &Text) -> Option<RoutineId>
        ensures { option_map (routine_of self.now) result ≡ plain.lookup (program_of self.now) class name.now }
    {
        parts::method(&self.tables, class, name)
    }

    /// The body of a function block or a program, which is not inherited.
    pub fn body_of(&self, class: u32) -> Option<RoutineId>
        ensures { option_map (routine_of self.now) result ≡ plain.body_of (program_of self.now) class }
    {
        parts::body_of(&self.tables, class)
    }
}
