//! The routine of a call, and the instance on which it runs.

ghost use Rattle.std.specs.Prelude.{◌≡◌, option_map, slice_get};
ghost use Rattle.st_meaning.specs.Call as words;
ghost use Rattle.st_meaning.specs.Operation.{class_in};
ghost use Rattle.st_meaning.specs.State.{path_of, there};
ghost use Rattle.st_values.specs.Program as plain;
ghost use Rattle.st_values.specs.View.{program_of};
ghost use Rattle.program_tables.specs.Routine.{routine_of};
ghost use Rattle.run_state.specs.Places.{spot_value};
ghost use Rattle.run_state.specs.State.{Agrees, Shows, spot_of, state_of};
ghost use Rattle.value_trees.specs.Value.{value_of};
ghost use Rattle.call_steps.specs.Callee.{search_seen};
ghost use Rattle.call_steps.specs.Found.{class_there, found_of, on_base, on_instance};
ghost use Rattle.call_steps.specs.Private.Found.{class_if_there, class_in_value, found_by, found_on};

use crate::callee::Search;
use plc_text::{FaultKind, Text};
use program_tables::{ProgramTables, RoutineId};
use run_state::{RunState, Spot, Stop, fault, path_of, value_of_spot};
use st_tree::Path;
use value_trees::Value;

/// A routine with the instance on which it runs.
#[derive(Drop)]
pub struct Found {
    pub routine: RoutineId,
    pub own: Path,
}

/// The function of a number.
pub fn function_of(
    tables: &ProgramTables,
    m: &RunState,
    number: u32,
    line: u32,
) -> Result<RoutineId, Stop>
    ensures { Shows (routine_of tables.now) result (there (slice_get (program_of tables.now).functions number) line (state_of m.now)) (state_of m.now) }
{
    let _ = m;
    match tables.function(number) {
        Some(routine) => Ok(routine),
        None => Err(fault(FaultKind::Null, line)),
    }
}

/// The name of an instance's class.
#[tactic(auto, using(value_trees::specs::Value::value_views))]
fn class_name(v: &Value) -> Option<&Text>
    ensures { option_map (λ t. t.now) result ≡ class_in (value_of v.now) }
{
    match v {
        Value::Instance(name, _) => Some(name),
        Value::Number(_) => None,
        Value::Reference(_) => None,
        Value::Array(_, _) => None,
        Value::Structure(_, _) => None,
    }
}

/// The number of the class of a value that is an instance.
fn class_of_value(tables: &ProgramTables, v: &Value) -> Option<u32>
    ensures { result ≡ class_in_value (program_of tables.now) (value_of v.now) }
{
    match class_name(v) {
        Some(name) => tables.class_number(name),
        None => None,
    }
}

/// The number of the class of the instance at a spot.
fn class_at(tables: &ProgramTables, m: &RunState, spot: &Spot) -> Option<u32>
    ensures { result ≡ class_if_there (program_of tables.now) (spot_value (state_of m.now) (spot_of spot.now)) }
{
    match value_of_spot(m, spot) {
        Some(v) => class_of_value(tables, v),
        None => None,
    }
}

/// The number of the class of the instance at a spot; anything else is a fault.
pub fn instance_class(
    tables: &ProgramTables,
    m: &RunState,
    spot: &Spot,
    line: u32,
) -> Result<u32, Stop>
    ensures { Agrees result (class_there (program_of tables.now) (spot_of spot.now) line (state_of m.now)) (state_of m.now) }
{
    match class_at(tables, m, spot) {
        Some(class) => Ok(class),
        None => Err(fault(FaultKind::Null, line)),
    }
}

fn start_class(search: Search, class: u32) -> u32
    ensures { result ≡ words.start_class (search_seen search) class }
{
    match search {
        Search::ByInstance => class,
        Search::FromClass(from) => from,
    }
}

/// A routine on the instance at a spot.
fn found_on(tables: &ProgramTables, routine: Option<RoutineId>, spot: Spot) -> Option<Found>
    ensures { option_map (found_of tables.now) result ≡ found_on (option_map (routine_of tables.now) routine) (path_of (spot_of spot)) }
{
    let _ = tables;
    match routine {
        Some(routine) => match path_of(spot) {
            Some(own) => Some(Found { routine, own }),
            None => None,
        },
        None => None,
    }
}

fn method_found(
    tables: &ProgramTables,
    m: &RunState,
    search: Search,
    name: &Text,
    spot: Spot,
) -> Option<Found>
    ensures { option_map (found_of tables.now) result ≡ found_by (program_of tables.now) (λ c. plain.lookup (program_of tables.now) (words.start_class (search_seen search) c) name.now) (state_of m.now) (spot_of spot) }
{
    match class_at(tables, m, &spot) {
        Some(class) => found_on(
            tables,
            tables.lookup(start_class(search, class), name),
            spot,
        ),
        None => None,
    }
}

fn body_found(tables: &ProgramTables, m: &RunState, spot: Spot) -> Option<Found>
    ensures { option_map (found_of tables.now) result ≡ found_by (program_of tables.now) (λ c. plain.body_of (program_of tables.now) c) (state_of m.now) (spot_of spot) }
{
    match class_at(tables, m, &spot) {
        Some(class) => found_on(tables, tables.body_of(class), spot),
        None => None,
    }
}

/// The method of a name for the instance at a spot, sought from its class or from a class of the text.
pub fn method_on(
    tables: &ProgramTables,
    m: &RunState,
    search: Search,
    name: &Text,
    spot: Spot,
    line: u32,
) -> Result<Found, Stop>
    ensures { Shows (found_of tables.now) result (on_instance (program_of tables.now) (λ c. plain.lookup (program_of tables.now) (words.start_class (search_seen search) c) name.now) (spot_of spot) line (state_of m.now)) (state_of m.now) }
{
    match method_found(tables, m, search, name, spot) {
        Some(found) => Ok(found),
        None => Err(fault(FaultKind::Null, line)),
    }
}

/// The body for the instance at a spot: that of its own class.
pub fn body_on(tables: &ProgramTables, m: &RunState, spot: Spot, line: u32) -> Result<Found, Stop>
    ensures { Shows (found_of tables.now) result (on_instance (program_of tables.now) (λ c. plain.body_of (program_of tables.now) c) (spot_of spot) line (state_of m.now)) (state_of m.now) }
{
    match body_found(tables, m, spot) {
        Some(found) => Ok(found),
        None => Err(fault(FaultKind::Null, line)),
    }
}

/// The body of a class of the text for the instance at a spot.
pub fn base_body(
    tables: &ProgramTables,
    m: &RunState,
    class: u32,
    spot: Spot,
    line: u32,
) -> Result<Found, Stop>
    ensures { Shows (found_of tables.now) result (on_base (program_of tables.now) class (spot_of spot) line (state_of m.now)) (state_of m.now) }
{
    let _ = m;
    match found_on(tables, tables.body_of(class), spot) {
        Some(found) => Ok(found),
        None => Err(fault(FaultKind::Null, line)),
    }
}
