//! The first load of a program, and the tables with which it is run.

ghost use Rattle.std.specs.Prelude.{◌≡◌, IfOk};
ghost use Rattle.st_change.specs.OneThread as words;
ghost use Rattle.st_values.specs.View.{program_of};
ghost use Rattle.region_instances.specs.Instances.{RegionsUnfold};
ghost use Rattle.reference_journal.specs.Loading.{Loads};
ghost use Rattle.reference_journal.specs.Private.First.{CameTo};
ghost use Rattle.reference_journal.specs.Private.Footprints.{AreFootprints};
ghost use Rattle.reference_journal.specs.Private.Tables.{AreTables};

use footprints::Footprints;
use plc_text::{Code, Fault, NoMemory, Refusal, Series, Text, narrowed};
use program_tables::{Members, ProgramTables, members_of};
use reference_start::{Started, Stopped, start};
use reference_tasks::Loaded;
use routine_tables::{RoutineTables, routine_tables};
use st_tree::Program;
use std::alloc::Global;
use value_trees::Member;

/// For each task of a program the regions that its cycles touch.
pub fn footprints_of(alloc: Global, program: &Program) -> Result<Vec<Vec<u32>>, NoMemory>
    ensures { IfOk result (λ all. RegionsUnfold (program_of program.now) → AreFootprints (program_of program.now) all.items) }
{
    let tables = Footprints::build(alloc, program)?;
    let mut all = Vec::new(alloc);
    for t in 0..program.tasks.len() {
        let task = narrowed(t)?;
        let regions = tables.footprint(alloc, task)?;
        all.push(regions)?;
    }
    Ok(all)
}

/// The refusal by a hook of a class that stopped at a fault.
pub fn refusal_of(class: Text, fault: Fault) -> Refusal
    ensures { result ≡ words.hook_refusal class fault.kind fault.line }
{
    Refusal {
        code: Code::E17,
        declaration: class,
        line: fault.line,
        kind: Some(fault.kind),
    }
}

/// Ends the use of a program's tables.
pub fn let_go(on: Loaded<'_>) {
    let Loaded {
        alloc: _alloc,
        program: _program,
        tables: _tables,
        members: _members,
        routines: _routines,
    } = on;
}

/// Gives the memory of a program back. The drops of its trees are proved with this function, so a crate above that ends a program by it,
/// and holds none at a `?`, has none of them to prove.
pub fn give_back(program: Program) {
    drop(program);
}

/// What a first load came to.
#[derive(Drop)]
pub enum First {
    /// The program is loaded, with this store.
    Loaded(Series<Member>),
    /// A hook stopped at a fault.
    Refused(Refusal),
}

/// The first load of a program with its tables.
fn load_by(
    alloc: Global,
    program: &Program,
    tables: &ProgramTables,
    members: &Members<'_>,
    routines: &RoutineTables<'_>,
) -> Result<First, NoMemory>
    requires { AreTables program.now tables.now members.now routines.now }
    ensures { IfOk result (λ came. RegionsUnfold (program_of program.now) → CameTo (program_of program.now) came) }
{
    let on = Loaded {
        alloc,
        program,
        tables,
        members,
        routines,
    };
    let came = start(&on);
    let_go(on);
    match came? {
        Started::Ran { store, .. } => Ok(First::Loaded(store)),
        Started::Stopped(stopped) => {
            let Stopped { class, fault } = stopped;
            Ok(First::Refused(refusal_of(class, fault)))
        }
    }
}

/// The store that the first load of a program leaves, or its refusal by a hook.
pub fn first_store(alloc: Global, program: &Program) -> Result<First, NoMemory>
    ensures { IfOk result (λ came. RegionsUnfold (program_of program.now) → CameTo (program_of program.now) came) }
{
    let tables = ProgramTables::build(alloc, program)?;
    let members = members_of(alloc, program)?;
    let routines = routine_tables(alloc, &tables, program)?;
    let came = load_by(alloc, program, &tables, &members, &routines)?;
    Ok(came)
}

/// Loads a program for the first time: there is a refusal exactly where a hook stops at a fault. The types of the regions are to unfold, as
/// those of each accepted program do. Nothing bounds the machine's stack in the hooks.
pub fn load_first(alloc: Global, program: &Program) -> Result<Option<Refusal>, NoMemory>
    ensures { IfOk result (λ refusal. RegionsUnfold (program_of program.now) → Loads (program_of program.now) refusal) }
{
    match first_store(alloc, program)? {
        First::Loaded(_) => Ok(None),
        First::Refused(refusal) => Ok(Some(refusal)),
    }
}
