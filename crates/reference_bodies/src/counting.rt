//! The steps of FOR (IEC 61131-3:2013, 7.3.3.4.2).

ghost use Rattle.std.specs.Prelude.{◌≡◌, ◌+ℤ◌, IfOk, if◌then◌else◌};
ghost use Rattle.std.specs.Ordering.{int_eq};
ghost use Rattle.st_meaning.specs.Loop.{exits, goes_on};
ghost use Rattle.st_meaning.specs.Operation as operations;
ghost use Rattle.st_meaning.specs.Place.{named_spot};
ghost use Rattle.st_meaning.specs.Statement as words;
ghost use Rattle.st_values.specs.Value as plain;
ghost use Rattle.run_state.specs.State.{Agrees, Keeps, Shows, base_of, state_of};
ghost use Rattle.value_trees.specs.Value.{value_of};
ghost use Rattle.reference_bodies.specs.Flow.{flow_of};
ghost use Rattle.reference_bodies.specs.Private.Turns.{begins, is_within};

use crate::flow::Flow;
use plc_text::NoMemory;
use run_state::{RunState, Stop, load, put};
use run_steps::{named_spot, number_in, operate};
use st_tree::{Operator, Target};
use st_types::Elem;
use std::alloc::Global;
use value_trees::Value;

fn is_negative(z: &i128) -> bool
    ensures { result ≡ words.is_negative z.now }
{
    *z < 0
}

/// Whether the variable has not passed the end.
fn within(step: &i128, end: &i128, z: &i128) -> bool
    ensures { result ≡ words.within step.now end.now z.now }
{
    if is_negative(step) {
        *end <= *z
    } else {
        *z <= *end
    }
}

/// The test: the variable is read anew.
pub fn is_within(
    alloc: Global,
    m: &RunState,
    target: &Target,
    end: &i128,
    step: &i128,
    line: u32,
) -> Result<bool, Stop>
    ensures { Agrees result (is_within (named_spot target.now) end.now step.now line (state_of m.now)) (state_of m.now) }
{
    let spot = named_spot(alloc, m, target, line)?;
    let v = load(alloc, m, &spot, line)?;
    Ok(within(step, end, &number_in(&v)))
}

fn same_number(a: &i128, b: &i128) -> bool
    ensures { result ≡ int_eq a.now b.now }
{
    *a == *b
}

/// Whether a number is the sum of two. No value of the language has a sum of more than 128 bits.
fn is_sum(w: &i128, z: i128, step: i128) -> Result<bool, NoMemory>
    ensures { IfOk result (λ b. b ≡ int_eq w.now (z +ℤ step)) }
{
    match z.checked_add(step) {
        Some(sum) => Ok(same_number(w, &sum)),
        None => Err(NoMemory),
    }
}

/// Where the step wrapped, the loop ends.
fn flow_behind(exact: bool) -> Flow
    ensures { flow_of result ≡ (if exact then goes_on else exits) }
{
    if exact { Flow::GoesOn } else { Flow::Exits }
}

#[tactic(auto, using(value_trees::specs::Value::value_views))]
fn number(z: &i128) -> Value
    ensures { value_of result ≡ plain.number z.now }
{
    Value::Number(*z)
}

/// The step: the variable is read anew, and the sum is wrapped.
#[tactic(auto, using(value_trees::specs::Value::value_views))]
pub fn add_step(
    alloc: Global,
    m: &mut RunState,
    e: Elem,
    target: &Target,
    step: &i128,
    line: u32,
) -> Result<Flow, Stop>
    ensures run { Shows flow_of result (words.add_step e step.now (named_spot target.now) line (state_of m.old)) (state_of m.new) }
    ensures base { Keeps result (base_of m.old) (base_of m.new) }
{
    let spot = named_spot(alloc, m, target, line)?;
    let v = load(alloc, m, &spot, line)?;
    let sum = operate(m, Operator::Plus, e, &v, number(step), line)?;
    let Ok(exact) = is_sum(&number_in(&sum), number_in(&v), *step) else {
        return Err(Stop::NoMemory);
    };
    put(alloc, m, &spot, sum, line)?;
    Ok(flow_behind(exact))
}

/// The variable has its first value.
pub fn begin(
    alloc: Global,
    m: &mut RunState,
    target: &Target,
    first: &i128,
    line: u32,
) -> Result<(), Stop>
    ensures run { Agrees result (begins (named_spot target.now) first.now line (state_of m.old)) (state_of m.new) }
    ensures base { Keeps result (base_of m.old) (base_of m.new) }
{
    let spot = named_spot(alloc, m, target, line)?;
    put(alloc, m, &spot, number(first), line)
}
