//! The parameters and locals of a routine.

ghost use Rattle.std.specs.Prelude.{◌≡◌, [], IfOk};
ghost use Rattle.st_values.specs.View as view;
ghost use Rattle.program_tables.specs.Routine.{routine_of};
ghost use Rattle.program_tables.specs.declared.routine.RoutineId.TheVariants as id;
ghost use Rattle.program_tables.specs.st_initial.Variables.{variables_of};
ghost use Rattle.routine_tables.specs.Parameters.{parameters_of};
ghost use Rattle.routine_tables.specs.Private.Declared as declared;

use crate::declared::{body_variables, push_sections};
use crate::locals::{push_of_body, push_others, push_parameters, push_result};
use crate::parameters::{Parameter, body_parameters, local_parameters};
use plc_text::{Items, NoMemory, Text, narrowed};
use program_tables::{ProgramTables, RoutineId, Variable, method_at};
use st_tree::{Note, Program, Section, TypeSpec};
use std::alloc::Global;

/// What a routine declares: its parameters, and its locals, the result first where there is one.
#[derive(Drop)]
pub struct Entry<'p> {
    pub parameters: Items<Parameter>,
    pub locals: Items<Variable<'p>>,
}

fn nothing<'p>(alloc: Global) -> Entry<'p>
    ensures parameters { result.parameters ≡ [] }
    ensures locals { result.locals ≡ [] }
{
    Entry {
        parameters: Items::new(alloc),
        locals: Items::new(alloc),
    }
}

/// Of a function or a method.
#[tactic(auto, using(crate::proofs::EntryLaws::locals_joined))]
fn routine_entry<'p>(
    alloc: Global,
    name: &'p Text,
    kind: &'p Option<TypeSpec<Note>>,
    sections: &'p [Section<Note>],
) -> Result<Entry<'p>, NoMemory>
    ensures parameters { IfOk result (λ e. parameters_of e.parameters ≡ declared.parameters name.now kind.now sections.now) }
    ensures locals { IfOk result (λ e. variables_of e.locals ≡ declared.locals name.now kind.now sections.now) }
{
    let mut all = Vec::new(alloc);
    push_sections(&mut all, sections)?;
    let mut locals = Vec::new(alloc);
    push_result(&mut locals, name, kind)?;
    let first = narrowed(locals.len())?;
    let parameters = local_parameters(alloc, first, &all)?;
    push_parameters(&mut locals, &all)?;
    push_others(&mut locals, &all)?;
    Ok(Entry {
        parameters,
        locals: Items::from_vec(locals),
    })
}

pub fn function_entry<'p>(
    alloc: Global,
    program: &'p Program,
    number: u32,
) -> Result<Entry<'p>, NoMemory>
    ensures parameters { IfOk result (λ e. parameters_of e.parameters ≡ (routine_of program.now (id.Function number)).parameters) }
    ensures locals { IfOk result (λ e. variables_of e.locals ≡ (routine_of program.now (id.Function number)).locals) }
{
    match program.functions.get(number as usize) {
        Some(f) => {
            let entry = routine_entry(alloc, &f.name.text, &f.result, f.sections.as_slice())?;
            Ok(entry)
        }
        None => Ok(nothing(alloc)),
    }
}

pub fn method_entry<'p>(
    alloc: Global,
    program: &'p Program,
    class: u32,
    place: u32,
) -> Result<Entry<'p>, NoMemory>
    ensures parameters { IfOk result (λ e. parameters_of e.parameters ≡ (routine_of program.now (id.Method class place)).parameters) }
    ensures locals { IfOk result (λ e. variables_of e.locals ≡ (routine_of program.now (id.Method class place)).locals) }
{
    match method_at(program.classes.as_slice(), class, place) {
        Some(m) => {
            let entry = routine_entry(alloc, &m.name.text, &m.result, m.sections.as_slice())?;
            Ok(entry)
        }
        None => Ok(nothing(alloc)),
    }
}

#[tactic(auto, using(crate::proofs::EntryLaws::parameters_of_body, crate::proofs::EntryLaws::locals_of_body))]
pub fn body_entry<'p>(
    alloc: Global,
    tables: &ProgramTables,
    program: &'p Program,
    class: u32,
) -> Result<Entry<'p>, NoMemory>
    requires { tables.now ≡ program.now }
    ensures parameters { IfOk result (λ e. parameters_of e.parameters ≡ (routine_of program.now (id.Body class)).parameters) }
    ensures locals { IfOk result (λ e. variables_of e.locals ≡ (routine_of program.now (id.Body class)).locals) }
{
    let all = body_variables(alloc, tables, program, class)?;
    let parameters = body_parameters(alloc, &all)?;
    let mut locals = Vec::new(alloc);
    push_of_body(&mut locals, &all)?;
    Ok(Entry {
        parameters,
        locals: Items::from_vec(locals),
    })
}
