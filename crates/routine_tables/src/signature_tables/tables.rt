//! What methods of interfaces may be given.

ghost use Rattle.std.specs.Prelude.{◌≡◌, slice_get, IfOk};
ghost use Rattle.st_values.specs.View.{program_of};
ghost use Rattle.st_meaning.specs.st_frame.Use.{interface_parameters};
ghost use Rattle.routine_tables.specs.Parameters.{parameters_of};
ghost use Rattle.routine_tables.specs.signature_tables.Tables.{Declares};

use crate::Parameter;
use crate::signature_tables::declarers::{Declarers, declarers, given, methods_named};
use plc_text::{NoMemory, Text};
use program_tables::ProgramTables;
use st_tree::Program;
use std::alloc::Global;

/// The methods of a program's interfaces by name, with what each may be given.
#[derive(Drop)]
pub struct SignatureTables {
    /// How many there are.
    interfaces: usize,
    methods: Declarers,
}

/// The tables of a program.
pub fn signature_tables(alloc: Global, program: &Program) -> Result<SignatureTables, NoMemory>
    ensures { IfOk result (λ made. Declares program.now made) }
{
    let interfaces = program.interfaces.as_slice();
    let methods = declarers(alloc, interfaces)?;
    Ok(SignatureTables {
        interfaces: interfaces.len(),
        methods,
    })
}

impl SignatureTables {
    /// What the method may be given that a name means in an interface: its own, or else what the name means in the first interface behind
    /// EXTENDS, in written order, that has one. Nothing where there is none. This goes upward, and asks of those behind EXTENDS of each
    /// interface whether they extend one that declares the name.
    pub fn parameters(&self, tables: &ProgramTables, interface: u32, name: &Text) -> &[Parameter]
        requires { Declares tables.now self.now }
        ensures { parameters_of result.now ≡ interface_parameters (slice_get (program_of tables.now).interfaces interface) name.now }
    {
        let methods = methods_named(&self.methods, name);
        match given(tables, methods, self.interfaces, interface) {
            Some(parameters) => parameters,
            None => &[],
        }
    }
}
