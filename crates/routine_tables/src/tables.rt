//! The parameters and locals of all routines of a program, each found once.

ghost use Rattle.std.specs.Prelude.{◌≡◌, ℕ, length, option_map, slice_get, IfOk};
ghost use Rattle.program_tables.specs.Routine.{members_of, routine_of};
ghost use Rattle.program_tables.specs.declared.routine.RoutineId.TheVariants as id;
ghost use Rattle.routine_tables.specs.Parameters.{parameters_of};
ghost use Rattle.routine_tables.specs.Tables.{IsIn, items_at, entry_at, parameters_at, Holds};

use crate::entry::{Entry, body_entry, function_entry, method_entry};
use crate::parameters::Parameter;
use plc_text::{Items, NoMemory, narrowed};
use program_tables::{ProgramTables, RoutineId};
use st_tree::Program;
use std::alloc::Global;

/// What the routines of a program declare: of each function, of each member of each class (nothing of a section), and of the body of
/// each class and program.
pub struct RoutineTables<'p> {
    pub functions: Items<Entry<'p>>,
    pub methods: Items<Items<Entry<'p>>>,
    pub bodies: Items<Entry<'p>>,
}

// By hand, so that a drop is one call: a derived one is written out wherever a `?` may need it.
impl Drop for RoutineTables<'_> {
    fn drop(self) {
        let RoutineTables {
            functions,
            methods,
            bodies,
        } = self;
        drop(functions);
        drop(methods);
        drop(bodies);
    }
}

#[tactic(auto, using(crate::proofs::TableLaws::none_yet, crate::proofs::TableLaws::one_more))]
fn functions(alloc: Global, program: &Program) -> Result<Items<Entry<'_>>, NoMemory>
    ensures { IfOk result (λ all. (k : ℕ) → IsIn (slice_get all k) (routine_of program.now (id.Function k))) }
{
    let mut all = Items::new(alloc);
    for k in 0..program.functions.len() {
        let number = narrowed(k)?;
        let entry = function_entry(alloc, program, number)?;
        all.push(entry)?;
    }
    Ok(all)
}

fn member_count(program: &Program, class: u32) -> usize
    ensures { result ≡ length (members_of (slice_get program.now.classes class)) }
{
    match program.classes.get(class as usize) {
        Some(class) => class.members.len(),
        None => 0,
    }
}

#[tactic(auto, using(crate::proofs::TableLaws::none_yet, crate::proofs::TableLaws::one_more))]
fn methods_of(alloc: Global, program: &Program, class: u32) -> Result<Items<Entry<'_>>, NoMemory>
    ensures { IfOk result (λ all. (m : ℕ) → IsIn (slice_get all m) (routine_of program.now (id.Method class m))) }
{
    let mut all = Items::new(alloc);
    for m in 0..member_count(program, class) {
        let place = narrowed(m)?;
        let entry = method_entry(alloc, program, class, place)?;
        all.push(entry)?;
    }
    Ok(all)
}

#[tactic(auto, using(crate::proofs::TableLaws::no_rows_yet, crate::proofs::TableLaws::one_row_more))]
fn methods(alloc: Global, program: &Program) -> Result<Items<Items<Entry<'_>>>, NoMemory>
    ensures { IfOk result (λ all. (c m : ℕ) → IsIn (slice_get (items_at (slice_get all c)) m) (routine_of program.now (id.Method c m))) }
{
    let mut all = Items::new(alloc);
    for c in 0..program.classes.len() {
        let class = narrowed(c)?;
        let entries = methods_of(alloc, program, class)?;
        all.push(entries)?;
    }
    Ok(all)
}

#[tactic(auto, using(crate::proofs::TableLaws::none_yet, crate::proofs::TableLaws::one_more))]
fn bodies<'p>(
    alloc: Global,
    tables: &ProgramTables,
    program: &'p Program,
) -> Result<Items<Entry<'p>>, NoMemory>
    requires { tables.now ≡ program.now }
    ensures { IfOk result (λ all. (c : ℕ) → IsIn (slice_get all c) (routine_of program.now (id.Body c))) }
{
    let mut all = Items::new(alloc);
    for c in 0..tables.class_count() {
        let class = narrowed(c)?;
        let entry = body_entry(alloc, tables, program, class)?;
        all.push(entry)?;
    }
    Ok(all)
}

/// What all routines of a program declare. The other tables are those of the program.
pub fn routine_tables<'p>(
    alloc: Global,
    tables: &ProgramTables,
    program: &'p Program,
) -> Result<RoutineTables<'p>, NoMemory>
    requires { tables.now ≡ program.now }
    ensures { IfOk result (λ made. Holds program.now made) }
{
    let functions = functions(alloc, program)?;
    let methods = methods(alloc, program)?;
    let bodies = bodies(alloc, tables, program)?;
    Ok(RoutineTables {
        functions,
        methods,
        bodies,
    })
}

fn method_at<'a, 'p>(
    methods: &'a [Items<Entry<'p>>],
    class: u32,
    place: u32,
) -> Option<&'a Entry<'p>>
    ensures { option_map (λ e. e.now) result ≡ slice_get (items_at (slice_get methods.now class)) place }
{
    match methods.get(class as usize) {
        Some(entries) => entries.get(place as usize),
        None => None,
    }
}

impl<'p> RoutineTables<'p> {
    /// What a routine declares; nothing is there for a routine that the program does not have.
    pub fn entry(&self, routine: RoutineId) -> Option<&Entry<'p>>
        ensures { option_map (λ e. e.now) result ≡ entry_at self.now routine }
    {
        match routine {
            RoutineId::Function(number) => self.functions.get(number as usize),
            RoutineId::Method(class, place) => method_at(self.methods.as_slice(), class, place),
            RoutineId::Body(class) => self.bodies.get(class as usize),
        }
    }

    /// The parameters of a routine; none where there is no such routine.
    pub fn parameters(&self, routine: RoutineId) -> &[Parameter]
        ensures { parameters_of result.now ≡ parameters_at self.now routine }
    {
        match self.entry(routine) {
            Some(entry) => entry.parameters.as_slice(),
            None => &[],
        }
    }
}
