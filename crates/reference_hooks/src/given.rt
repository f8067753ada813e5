//! What hooks are given.

ghost use Rattle.std.specs.Prelude.{◌≡◌, ◌++◌, ◌∷◌, [], IfOk, OnOk, map};
ghost use Rattle.st_meaning.specs.Call as calls;
ghost use Rattle.st_meaning.specs.Operation.{truth};
ghost use Rattle.st_change.specs.Hook as words;
ghost use Rattle.call_frames.specs.Opening.{given_of};
ghost use Rattle.routine_tables.specs.Parameters.{parameters_of, recipient_of};
ghost use Rattle.value_trees.specs.Value.{value_of};

use call_frames::Given;
use call_steps::given_value;
use plc_text::{NoMemory, Series};
use routine_tables::{Parameter, Recipient};
use std::alloc::Global;
use value_trees::Value;

#[tactic(auto, using(value_trees::specs::Value::value_views))]
fn truth_value(flag: bool) -> Value
    ensures { value_of result ≡ truth flag }
{
    if flag {
        Value::Number(1)
    } else {
        Value::Number(0)
    }
}

/// Adds what an input is given.
fn push_flag(given: &mut Series<Given>, to: Recipient, flag: bool) -> Result<(), NoMemory>
    ensures { OnOk result (map given_of given.new ≡ map given_of given.old ++ (calls.given_value (recipient_of to) (truth flag) ∷ [])) }
{
    given.push(given_value(to, truth_value(flag)))
}

/// What the inputs of a hook are given, in their order.
pub fn give_flags(
    alloc: Global,
    parameters: &[Parameter],
    flags: &[bool],
) -> Result<Series<Given>, NoMemory>
    ensures { IfOk result (λ given. map given_of given ≡ words.given_flags (parameters_of parameters.now) flags.now) }
{
    let mut given = Series::new(alloc);
    let mut inputs = parameters;
    let mut left = flags;
    'flags: while let Some((flag, others)) = left.split_first() {
        let Some((input, behind)) = inputs.split_first() else {
            return Ok(given);
        };
        push_flag(&mut given, input.to, *flag)?;
        inputs = behind;
        left = others;
    }
    Ok(given)
}
