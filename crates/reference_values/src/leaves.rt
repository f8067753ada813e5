//! Values that are written out.

ghost use Rattle.std.specs.Prelude.{◌≡◌, IfOk, None, pos};
ghost use Rattle.st_tree.specs.Duration as durations;
ghost use Rattle.st_tree.specs.Number as numbers;
ghost use Rattle.st_meaning.specs.Operation as words;
ghost use Rattle.st_meaning.specs.State.{path_of};
ghost use Rattle.st_values.specs.Initial.{constant};
ghost use Rattle.st_values.specs.Value.{number, reference};
ghost use Rattle.run_state.specs.State.{spot_of};
ghost use Rattle.value_trees.specs.Value.{value_of};

use plc_text::{NoMemory, Text};
use run_state::{Spot, path_of};
use run_steps::literal_value;
use st_tree::{Literal, Target, milliseconds, number_of};
use value_trees::Value;

/// A number; one of more than 64 bits is none.
#[tactic(auto, using(value_trees::specs::Value::value_views))]
pub fn int(digits: &Text) -> Result<Value, NoMemory>
    ensures { IfOk result (λ v. value_of v ≡ number (pos (numbers.number_of digits.now))) }
{
    match number_of(digits.as_str()) {
        Some(n) => Ok(Value::Number(i128::from(n))),
        None => Err(NoMemory),
    }
}

/// A number behind its type.
#[tactic(auto, using(value_trees::specs::Value::value_views))]
pub fn typed(literal: &Literal) -> Result<Value, NoMemory>
    ensures { IfOk result (λ v. value_of v ≡ number (words.literal_value literal.now)) }
{
    match literal_value(literal) {
        Some(z) => Ok(known(&z)),
        None => Err(NoMemory),
    }
}

/// A duration in milliseconds.
#[tactic(auto, using(value_trees::specs::Value::value_views))]
pub fn duration(text: &Text) -> Result<Value, NoMemory>
    ensures { IfOk result (λ v. value_of v ≡ number (pos (durations.milliseconds text.now))) }
{
    match milliseconds(text.as_str()) {
        Some(n) => Ok(Value::Number(i128::from(n))),
        None => Err(NoMemory),
    }
}

/// A number that is known.
#[tactic(auto, using(value_trees::specs::Value::value_views))]
pub fn known(z: &i128) -> Value
    ensures { value_of result ≡ number z.now }
{
    Value::Number(*z)
}

/// A number that is not below zero.
#[tactic(auto, using(value_trees::specs::Value::value_views))]
pub fn natural(n: u64) -> Value
    ensures { value_of result ≡ number (pos n) }
{
    Value::Number(i128::from(n))
}

/// NULL.
#[tactic(auto, using(value_trees::specs::Value::value_views))]
pub fn null() -> Value
    ensures { value_of result ≡ reference None }
{
    Value::Reference(None)
}

/// The number of a constant or an enumerator; 0 of anything else.
#[tactic(auto, using(value_trees::specs::Value::value_views))]
pub fn constant_value(target: &Target) -> Value
    ensures { value_of result ≡ number (constant target.now) }
{
    match target {
        Target::Constant(z) => Value::Number(*z),
        Target::Enumerator(k) => Value::Number(i128::from(*k)),
        _ => Value::Number(0),
    }
}

/// A reference to what stands at a spot.
#[tactic(auto, using(value_trees::specs::Value::value_views))]
pub fn reference(spot: Spot) -> Value
    ensures { value_of result ≡ reference (path_of (spot_of spot)) }
{
    Value::Reference(path_of(spot))
}
