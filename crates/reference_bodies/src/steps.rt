//! The steps of statements that hold no statement.

ghost use Rattle.std.specs.Prelude.{◌≡◌, option_map};
ghost use Rattle.st_meaning.specs.Operation.{path_in};
ghost use Rattle.st_meaning.specs.Statement as words;
ghost use Rattle.st_values.specs.Value.{reference};
ghost use Rattle.st_values.specs.View.{program_of};
ghost use Rattle.run_state.specs.State.{Agrees, Shows, state_of};
ghost use Rattle.value_trees.specs.Value.{value_of};
ghost use Rattle.reference_bodies.specs.Private.Attempted.{attempted, kept_if};

use call_steps::instance_class;
use plc_text::{FaultKind, NoMemory};
use program_tables::ProgramTables;
use run_state::{RunState, Spot, Stop, fault};
use run_steps::path_in;
use st_tree::Path;
use st_types::StType;
use std::alloc::Global;
use value_trees::{Value, copy_path};

/// A step that is 0 is a fault.
pub fn no_zero(m: &RunState, z: i128, line: u32) -> Result<i128, Stop>
    ensures { Agrees result (words.no_zero z line (state_of m.now)) (state_of m.now) }
{
    let _ = m;
    if z == 0 {
        return Err(fault(FaultKind::Step, line));
    }
    Ok(z)
}

/// A reference to an instance, or NULL.
#[tactic(auto, using(value_trees::specs::Value::value_views))]
fn reference(path: Option<Path>) -> Value
    ensures { value_of result ≡ reference path }
{
    Value::Reference(path)
}

/// The instance that is held, where it conforms to a type.
fn conforming(
    alloc: Global,
    tables: &ProgramTables,
    m: &RunState,
    kind: &StType,
    held: &Path,
    line: u32,
) -> Result<Option<Path>, Stop>
    ensures { Agrees result (kept_if (program_of tables.now) kind.now held.now line (state_of m.now)) (state_of m.now) }
{
    let Ok(path) = copy_path(alloc, held) else {
        return Err(Stop::NoMemory);
    };
    let spot = Spot::Region(path);
    let class = instance_class(tables, m, &spot, line)?;
    if tables.conforms(class, kind) {
        match copy_path(alloc, held) {
            Ok(path) => Ok(Some(path)),
            Err(NoMemory) => Err(Stop::NoMemory),
        }
    } else {
        Ok(None)
    }
}

/// What `?=` gives: what is held where its instance conforms to the type, else NULL.
pub fn attempted(
    alloc: Global,
    tables: &ProgramTables,
    m: &RunState,
    kind: &StType,
    v: &Value,
    line: u32,
) -> Result<Value, Stop>
    ensures { Shows value_of result (attempted (program_of tables.now) kind.now (path_in (value_of v.now)) line (state_of m.now)) (state_of m.now) }
{
    match path_in(v) {
        Some(held) => {
            let path = conforming(alloc, tables, m, kind, held, line)?;
            Ok(reference(path))
        }
        None => Ok(reference(None)),
    }
}
