//! The steps of the walk that hold no expression.

ghost use Rattle.std.specs.Prelude.{◌≡◌, IfOk, OnOk, Some, map, option_map};
ghost use Rattle.st_tree.specs.Expression.{argument_of, selector_of};
ghost use Rattle.st_meaning.specs.Expression as expressions;
ghost use Rattle.st_meaning.specs.Place.{root_note};
ghost use Rattle.call_frames.specs.Opening.{given_of};
ghost use Rattle.call_steps.specs.Callee.{callee_seen};
ghost use Rattle.routine_tables.specs.Parameters.{parameters_of};
ghost use Rattle.run_state.specs.State.{Shows, spot_of, state_of};
ghost use Rattle.value_trees.specs.Value.{value_of};
ghost use Rattle.reference_values.specs.Private.Parts.{added, element_of, is_conversion, left_behind};

use call_frames::Given;
use call_steps::{Callee, Found, behind_next};
use plc_text::{FaultKind, NoMemory, Series};
use program_tables::RoutineId;
use routine_tables::Parameter;
use run_state::{RunState, Spot, Stop, fault, into_part};
use run_steps::{index_in, number_in};
use st_tree::{Argument, Note, Path, Root, Selector, Step};
use st_types::StType;
use std::alloc::Global;
use value_trees::{Value, copy_path};

pub fn root_note(root: &Root<Note>) -> &Note
    ensures { result.now ≡ root_note root.now }
{
    match root {
        Root::Name(a, _) => a,
        Root::This(a) => a,
        Root::Super(a) => a,
    }
}

#[tactic(auto, using(st_tree::specs::Expression::expression_views))]
pub fn selector_note(selector: &Selector<Note>) -> &Note
    ensures { result.now ≡ expressions.selector_note (selector_of selector.now) }
{
    match selector {
        Selector::Field(a, _) => a,
        Selector::Index(a, _) => a,
        Selector::Target(a) => a,
    }
}

/// The element at the index that a value is.
pub fn element_of(
    m: &RunState,
    kind: &StType,
    spot: Spot,
    index: &Value,
    line: u32,
) -> Result<Spot, Stop>
    ensures { Shows spot_of result (element_of kind.now (spot_of spot) (value_of index.now) line (state_of m.now)) (state_of m.now) }
{
    let _ = m;
    match index_in(kind, &number_in(index)) {
        Some(i) => match into_part(spot, Step::Element(i)) {
            Ok(part) => Ok(part),
            Err(NoMemory) => Err(Stop::NoMemory),
        },
        None => Err(fault(FaultKind::Index, line)),
    }
}

/// The parameters that are left behind an argument.
#[tactic(auto, using(st_tree::specs::Expression::expression_views))]
pub fn left_behind<'a>(argument: &Argument<Note>, left: &'a [Parameter]) -> &'a [Parameter]
    ensures { parameters_of result.now ≡ left_behind (argument_of argument.now) (parameters_of left.now) }
{
    match argument {
        Argument::Positional(_) => behind_next(left),
        Argument::Input(_, _, _) => left,
        Argument::Output(_, _, _, _) => left,
    }
}

/// Adds what is given, if anything is.
pub fn push_given(given: &mut Series<Given>, one: Option<Given>) -> Result<(), NoMemory>
    ensures { OnOk result (map given_of given.new ≡ added (map given_of given.old) (option_map given_of one)) }
{
    match one {
        Some(one) => given.push(one),
        None => Ok(()),
    }
}

pub fn is_conversion(callee: &Callee<'_>) -> bool
    ensures { result ≡ is_conversion (callee_seen callee.now) }
{
    match callee {
        Callee::Conversion => true,
        Callee::Function(_) => false,
        Callee::Method(_, _) => false,
        Callee::Body(_) => false,
    }
}

/// The own instance of a call again.
pub fn copy_own(alloc: Global, own: &Option<Path>) -> Result<Option<Path>, NoMemory>
    ensures { IfOk result (λ copy. copy ≡ own.now) }
{
    match own {
        Some(path) => Ok(Some(copy_path(alloc, path)?)),
        None => Ok(None),
    }
}

/// The routine of a call, with its instance where it has one, and whether its in-outs are those of the body that runs.
#[derive(Drop)]
pub struct Called {
    pub routine: RoutineId,
    pub own: Option<Path>,
    pub same: bool,
}

/// What is found on an instance is called there.
pub fn on_instance(found: Found, same: bool) -> Called
    ensures routine { result.routine ≡ found.routine }
    ensures own { result.own ≡ Some found.own }
    ensures same { result.same ≡ same }
{
    Called {
        routine: found.routine,
        own: Some(found.own),
        same,
    }
}
