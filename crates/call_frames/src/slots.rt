//! The locals of a call: initial values, and over them what is given.

ghost use Rattle.std.specs.Prelude.{◌≡◌, IfOk, map, slice_set};
ghost use Rattle.st_meaning.specs.Call as words;
ghost use Rattle.st_values.specs.View.{program_of};
ghost use Rattle.program_tables.specs.st_initial.Members as tables;
ghost use Rattle.program_tables.specs.st_initial.Variables.{variable_of, variables_of};
ghost use Rattle.run_state.specs.State.{slot_of};

use initial_trees::initial_value;
use plc_text::{NoMemory, Series};
use program_tables::{Members, Variable};
use run_state::Slot;
use st_tree::{Program, SectionSort};
use std::alloc::Global;
use value_trees::Value;

/// What is given to a call: to a local of the routine, or to a variable of the instance whose body is called, by its number.
#[derive(Drop)]
pub enum Given {
    Local(u32, Slot),
    Variable(u32, Value),
}

/// What a local holds before anything is given.
fn initial_slot(
    alloc: Global,
    program: &Program,
    members: &Members<'_>,
    variable: &Variable<'_>,
) -> Result<Slot, NoMemory>
    requires { tables.Holds (program_of program.now) members.now }
    ensures { IfOk result (λ slot. slot_of slot ≡ words.initial_slot (program_of program.now) (variable_of variable.now)) }
{
    match variable.sort {
        SectionSort::InOut => Ok(Slot::Unbound),
        _ => {
            let value = initial_value(alloc, program, members, variable)?;
            Ok(Slot::Holds(value))
        }
    }
}

/// What the locals hold before anything is given.
pub fn initial_slots(
    alloc: Global,
    program: &Program,
    members: &Members<'_>,
    locals: &[Variable<'_>],
) -> Result<Series<Slot>, NoMemory>
    requires { tables.Holds (program_of program.now) members.now }
    ensures { IfOk result (λ slots. map slot_of slots ≡ words.initial_slots (program_of program.now) (variables_of locals.now)) }
{
    let mut slots = Series::new(alloc);
    for local in locals {
        let slot = initial_slot(alloc, program, members, local)?;
        slots.push(slot)?;
    }
    Ok(slots)
}

/// Gives a slot to the local of a number; a number that is no local's changes nothing.
pub fn set_slot(slots: &mut Series<Slot>, n: u32, slot: Slot)
    ensures { map slot_of slots.new ≡ slice_set (map slot_of slots.old) n (slot_of slot) }
{
    match slots.get_mut(n as usize) {
        Some(held) => *held = slot,
        None => {}
    }
}
