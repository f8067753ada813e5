//! What a call leaves.

ghost use Rattle.std.specs.Prelude.{◌≡◌, option_map};
ghost use Rattle.plc_num.specs.Conversion.{converted};
ghost use Rattle.st_values.specs.Value.{number};
ghost use Rattle.st_meaning.specs.Expression as expressions;
ghost use Rattle.st_meaning.specs.Operation.{elem_of, number_in};
ghost use Rattle.routine_tables.specs.Parameters.{parameter_of};
ghost use Rattle.run_state.specs.State.{Shows, frame_of, state_of};
ghost use Rattle.value_trees.specs.Value.{value_of};

use call_frames::{left_in_local, left_in_variable};
use plc_num::convert;
use plc_text::FaultKind;
use routine_tables::{Parameter, Recipient};
use run_state::{Frame, RunState, Stop, fault};
use run_steps::{elem_of, number_in};
use st_tree::Path;
use st_types::StType;
use std::alloc::Global;
use value_trees::Value;

/// The value of an output: what the routine left in a local, or what stands in the instance of a block.
pub fn output_left(
    alloc: Global,
    m: &RunState,
    parameter: Option<Parameter>,
    own: Option<&Path>,
    frame: &Frame,
    line: u32,
) -> Result<Value, Stop>
    ensures { Shows value_of result (expressions.output_of (option_map parameter_of parameter) (option_map (λ q. q.now) own.entry) (frame_of frame.now) line (state_of m.now)) (state_of m.now) }
{
    match parameter {
        Some(parameter) => match parameter.to {
            Recipient::Local(n) => left_in_local(alloc, m, frame, n, line),
            Recipient::Variable(k) => left_in_variable(alloc, m, own, k, line),
        },
        None => Err(fault(FaultKind::Null, line)),
    }
}

/// A number in the type to which it is converted.
#[tactic(auto, using(value_trees::specs::Value::value_views))]
pub fn converted_value(kind: &StType, v: &Value) -> Value
    ensures { value_of result ≡ number (converted (elem_of kind.now) (number_in (value_of v.now))) }
{
    Value::Number(convert(elem_of(kind), number_in(v)))
}
