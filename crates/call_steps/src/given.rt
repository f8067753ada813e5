//! What arguments are for (IEC 61131-3:2013, 6.6.1.4.2).

ghost use Rattle.std.specs.Prelude.{◌≡◌, map, option_map};
ghost use Rattle.st_meaning.specs.Call as words;
ghost use Rattle.call_frames.specs.Opening.{given_of};
ghost use Rattle.routine_tables.specs.Parameters.{parameter_of, parameters_of, recipient_of};
ghost use Rattle.run_state.specs.State.{Shows, spot_of, state_of};
ghost use Rattle.value_trees.specs.Value.{value_of};
ghost use Rattle.call_steps.specs.Private.Given.{SameAdds, same_of, same_one};

use call_frames::Given;
use plc_text::{NoMemory, Series};
use routine_tables::{Parameter, Recipient};
use run_state::{RunState, Slot, Spot, Stop, local_spot};
use st_tree::{Note, SectionSort, Target};
use std::alloc::Global;
use value_trees::Value;

/// A value for a parameter.
pub fn given_value(to: Recipient, v: Value) -> Given
    ensures { given_of result ≡ words.given_value (recipient_of to) (value_of v) }
{
    match to {
        Recipient::Local(n) => Given::Local(n, Slot::Holds(v)),
        Recipient::Variable(k) => Given::Variable(k, v),
    }
}

/// The number of the local or the variable to which an argument goes.
pub fn number_to(to: Recipient) -> u32
    ensures { result ≡ words.number_to (recipient_of to) }
{
    match to {
        Recipient::Local(n) => n,
        Recipient::Variable(k) => k,
    }
}

/// A place for an in-out, which is always a local.
pub fn given_place(to: Recipient, spot: Spot) -> Given
    ensures { given_of result ≡ words.given_place (recipient_of to) (spot_of spot) }
{
    Given::Local(number_to(to), Slot::Bound(spot))
}

/// Whether a parameter is an in-out.
pub fn is_in_out(sort: SectionSort) -> bool
    ensures { result ≡ words.is_in_out sort }
{
    matches!(sort, SectionSort::InOut)
}

/// Whether a parameter is an output.
pub fn is_output(sort: SectionSort) -> bool
    ensures { result ≡ words.is_output sort }
{
    matches!(sort, SectionSort::Output)
}

/// The number of the parameter that an argument names.
pub fn parameter_number(target: &Target) -> u32
    ensures { result ≡ words.parameter_number target.now }
{
    match target {
        Target::Parameter(k) => *k,
        _ => 0,
    }
}

/// The parameter that an argument names.
pub fn parameter_named(parameters: &[Parameter], note: &Note) -> Option<Parameter>
    ensures { option_map parameter_of result ≡ words.parameter_named (parameters_of parameters.now) note.now }
{
    parameters
        .get(parameter_number(&note.target) as usize)
        .copied()
}

/// The parameter of the next argument without a name: outputs are passed over.
pub fn next_parameter(left: &[Parameter]) -> Option<Parameter>
    ensures { option_map parameter_of result ≡ words.next_parameter (parameters_of left.now) }
{
    let mut left = left;
    'parameters: while let Some((parameter, behind)) = left.split_first() {
        if !is_output(parameter.sort) {
            return Some(*parameter);
        }
        left = behind;
    }
    None
}

/// The parameters behind the one of the next argument without a name.
pub fn behind_next(left: &[Parameter]) -> &[Parameter]
    ensures { parameters_of result.now ≡ words.behind_next (parameters_of left.now) }
{
    let mut left = left;
    'parameters: while let Some((parameter, behind)) = left.split_first() {
        if !is_output(parameter.sort) {
            return behind;
        }
        left = behind;
    }
    left
}

/// An in-out of the body that runs, for the local of the same number.
fn same_in_out(alloc: Global, m: &RunState, number: u32, line: u32) -> Result<Given, Stop>
    ensures { Shows given_of result (same_one number line (state_of m.now)) (state_of m.now) }
{
    let spot = local_spot(alloc, m, number, line)?;
    Ok(Given::Local(number, Slot::Bound(spot)))
}

/// Adds a parameter that is an in-out.
fn push_same(
    alloc: Global,
    m: &RunState,
    given: &mut Series<Given>,
    parameter: Parameter,
    line: u32,
) -> Result<(), Stop>
    ensures { SameAdds result (same_of (parameter_of parameter) line (state_of m.now)) (state_of m.now) (map given_of given.old) (map given_of given.new) }
{
    if !is_in_out(parameter.sort) {
        return Ok(());
    }
    let one = same_in_out(alloc, m, number_to(parameter.to), line)?;
    match given.push(one) {
        Ok(()) => Ok(()),
        Err(NoMemory) => Err(Stop::NoMemory),
    }
}

/// The in-outs of a body that is entered with those of the one that runs.
pub fn same_in_outs(
    alloc: Global,
    m: &RunState,
    parameters: &[Parameter],
    line: u32,
) -> Result<Series<Given>, Stop>
    ensures { Shows (map given_of) result (words.same_in_outs (parameters_of parameters.now) line (state_of m.now)) (state_of m.now) }
{
    let mut given = Series::new(alloc);
    let mut left = parameters;
    'parameters: while let Some((parameter, behind)) = left.split_first() {
        match push_same(alloc, m, &mut given, *parameter, line) {
            Ok(()) => left = behind,
            Err(stop) => return Err(stop),
        }
    }
    Ok(given)
}
