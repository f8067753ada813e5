//! What a walk stands on.

ghost use Rattle.std.specs.Prelude.{◌≡◌, map};
ghost use Rattle.st_meaning.specs.Enter.{enter};
ghost use Rattle.st_values.specs.View.{program_of};
ghost use Rattle.program_tables.specs.Routine.{routine_of};
ghost use Rattle.call_frames.specs.Opening.{given_of};
ghost use Rattle.routine_tables.specs.Parameters.{parameters_of};
ghost use Rattle.run_state.specs.State.{Shows, Keeps, base_of, frame_of, state_of};
ghost use Rattle.reference_values.specs.Walks.{Walks};

use call_frames::Given;
use plc_text::Series;
use program_tables::{ProgramTables, RoutineId};
use routine_tables::{Parameter, RoutineTables};
use run_state::{Frame, RunState, Stop};
use st_tree::Path;
use std::alloc::Global;

/// The tables of a program, and how a routine is entered on an instance with what is given, at a line.
#[derive(Drop)]
pub struct Walk<'p, F> {
    pub alloc: Global,
    pub tables: &'p ProgramTables,
    pub routines: &'p RoutineTables<'p>,
    /// How many more calls may be open in a routine that is entered.
    pub room: u32,
    pub enter: F,
}

impl<F: Fn(&mut RunState, RoutineId, Option<Path>, Series<Given>, u32) -> Result<Frame, Stop>> Walk<
    '_,
    F,
> {
    /// Enters a routine.
    pub fn entered(
        &self,
        m: &mut RunState,
        routine: RoutineId,
        own: Option<Path>,
        given: Series<Given>,
        line: u32,
    ) -> Result<Frame, Stop>
        requires { Walks self.now.tables.now self.now.routines.now self.now.room (F.pre self.now.enter) (F.post self.now.enter) }
        ensures run { Shows frame_of result (enter (program_of self.now.tables.now) self.now.room (routine_of self.now.tables.now routine) own (map given_of given) line (state_of m.old)) (state_of m.new) }
        ensures base { Keeps result (base_of m.old) (base_of m.new) }
    {
        (self.enter)(m, routine, own, given, line)
    }

    /// The inputs, outputs and in-outs of a routine.
    pub fn parameters(&self, routine: RoutineId) -> &[Parameter]
        requires { Walks self.now.tables.now self.now.routines.now self.now.room (F.pre self.now.enter) (F.post self.now.enter) }
        ensures { parameters_of result.now ≡ (routine_of self.now.tables.now routine).parameters }
    {
        self.routines.parameters(routine)
    }
}
