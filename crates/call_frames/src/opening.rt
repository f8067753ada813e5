//! A call is opened: inputs of a block are written to its instance, and the frame is pushed.

ghost use Rattle.std.specs.Prelude.{◌≡◌, ◌∷◌, [], IfOk, List, OnOk, map, option_map, reverse};
ghost use Rattle.st_meaning.specs.Call as words;
ghost use Rattle.st_meaning.specs.State.{in_store, into};
ghost use Rattle.st_values.specs.View.{program_of};
ghost use Rattle.program_tables.specs.st_initial.Members as tables;
ghost use Rattle.program_tables.specs.st_initial.Variables.{variables_of};
ghost use Rattle.run_state.specs.State.{Agrees, Keeps, base_of, slot_of, spot_of, state_of};
ghost use Rattle.value_trees.specs.Value.{value_of};
ghost use Rattle.call_frames.specs.Opening.{given_of, opened};
ghost use Rattle.call_frames.specs.Private.Slots.{one_variable};

use crate::slots::{Given, initial_slots, set_slot};
use plc_text::{FaultKind, NoMemory, Series};
use program_tables::{Members, Variable};
use run_state::{Frame, RunState, Slot, Spot, Stop, fault, into_part, push, put};
use st_tree::{Path, Program, Step};
use std::alloc::Global;
use value_trees::{Value, copy_path};

/// A variable of an instance, as a spot.
pub fn variable_spot(alloc: Global, own: &Path, k: u32) -> Result<Spot, NoMemory>
    ensures { IfOk result (λ spot. spot_of spot ≡ into (in_store own.now) (Step.Field k)) }
{
    let path = copy_path(alloc, own)?;
    into_part(Spot::Region(path), Step::Field(k))
}

/// Writes an input of a block to the instance.
fn put_variable(
    alloc: Global,
    m: &mut RunState,
    own: Option<&Path>,
    k: u32,
    value: Value,
    line: u32,
) -> Result<(), Stop>
    ensures run { Agrees result (one_variable (option_map (λ q. q.now) own.entry) k (value_of value) line (state_of m.old)) (state_of m.new) }
    ensures base { Keeps result (base_of m.old) (base_of m.new) }
{
    let Some(own) = own else {
        return Err(fault(FaultKind::Null, line));
    };
    let Ok(spot) = variable_spot(alloc, own, k) else {
        return Err(Stop::NoMemory);
    };
    put(alloc, m, &spot, value, line)
}

/// Gives what is given to a local or to a variable of the instance.
fn give(
    alloc: Global,
    m: &mut RunState,
    own: Option<&Path>,
    slots: &mut Series<Slot>,
    given: Given,
    line: u32,
) -> Result<(), Stop>
    ensures slots { OnOk result ((rest : List words.Given) → words.with_given (map slot_of slots.new) rest ≡ words.with_given (map slot_of slots.old) (given_of given ∷ rest)) }
    ensures run { Agrees result (words.set_variables (option_map (λ q. q.now) own.entry) (given_of given ∷ []) line (state_of m.old)) (state_of m.new) }
    ensures base { Keeps result (base_of m.old) (base_of m.new) }
{
    match given {
        Given::Local(n, slot) => {
            set_slot(slots, n, slot);
            Ok(())
        }
        Given::Variable(k, value) => put_variable(alloc, m, own, k, value, line),
    }
}

/// The items from the last to the first.
fn reversed(alloc: Global, given: Series<Given>) -> Result<Series<Given>, NoMemory>
    ensures { IfOk result (λ turned. turned ≡ reverse given) }
{
    let mut given = given;
    let mut turned = Series::new(alloc);
    while let Some(last) = given.pop() {
        turned.push(last)?;
    }
    Ok(turned)
}

/// Gives all that is given, in order.
fn give_all(
    alloc: Global,
    m: &mut RunState,
    own: Option<&Path>,
    slots: &mut Series<Slot>,
    turned: Series<Given>,
    line: u32,
) -> Result<(), Stop>
    ensures slots { OnOk result (map slot_of slots.new ≡ words.with_given (map slot_of slots.old) (map given_of (reverse turned))) }
    ensures run { Agrees result (words.set_variables (option_map (λ q. q.now) own.entry) (map given_of (reverse turned)) line (state_of m.old)) (state_of m.new) }
    ensures base { Keeps result (base_of m.old) (base_of m.new) }
{
    let mut left = turned;
    while let Some(next) = left.pop() {
        give(alloc, m, own, slots, next, line)?;
    }
    Ok(())
}

/// Opens a call of a routine with these locals on an instance: writes what is given to variables of the instance, and pushes a frame with
/// initial values and what is given to locals. The members are those of the program.
pub fn open(
    alloc: Global,
    m: &mut RunState,
    program: &Program,
    members: &Members<'_>,
    locals: &[Variable<'_>],
    own: Option<Path>,
    given: Series<Given>,
    line: u32,
) -> Result<(), Stop>
    requires { tables.Holds (program_of program.now) members.now }
    ensures run { Agrees result (opened (program_of program.now) (variables_of locals.now) own (map given_of given) line (state_of m.old)) (state_of m.new) }
    ensures base { Keeps result (base_of m.old) (base_of m.new) }
{
    let Ok(mut slots) = initial_slots(alloc, program, members, locals) else {
        return Err(Stop::NoMemory);
    };
    let Ok(turned) = reversed(alloc, given) else {
        return Err(Stop::NoMemory);
    };
    give_all(alloc, m, own.as_ref(), &mut slots, turned, line)?;
    push(m, Frame { own, locals: slots })
}
