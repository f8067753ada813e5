//! All that footprints go by, found once for a program.

ghost use Rattle.std.specs.Prelude.{◌≡◌, length, IfOk};
ghost use Rattle.st_values.specs.View.{program_of};
ghost use Rattle.region_instances.specs.Instances.{RegionsUnfold};
ghost use Rattle.footprints.specs.Private.Holders.{AreAllHolders};
ghost use Rattle.footprints.specs.Private.Tables.{AreTables};

use crate::holders::holders;
use crate::inputs::inputs;
use crate::reached_routines::Conformers;
use plc_text::{Items, NoMemory, narrowed};
use program_tables::ProgramTables;
use region_instances::RegionInstances;
use routine_tables::signature_tables::{SignatureTables, signature_tables};
use routine_tables::{RoutineTables, routine_tables};
use st_tree::Program;
use std::alloc::Global;

/// Tables of a program.
pub struct Tables<'p> {
    pub program: &'p Program,
    pub tables: ProgramTables,
    pub routines: RoutineTables<'p>,
    pub signatures: SignatureTables,
    pub conformers: Conformers,
    /// The regions that hold instances of each class.
    pub holders: Vec<Items<u32>>,
    /// Whether each region holds an input.
    pub inputs: Vec<bool>,
}

// By hand, so that a drop is one call: a derived one is written out wherever a `?` may need it, and a proof goes over each part.
impl Drop for Tables<'_> {
    fn drop(self) {
        let Tables {
            program,
            tables,
            routines,
            signatures,
            conformers,
            holders,
            inputs,
        } = self;
        drop(program);
        drop(tables);
        drop(routines);
        drop(signatures);
        drop(conformers);
        drop(holders);
        drop(inputs);
    }
}

/// The regions that hold instances of each class of a program.
fn class_holders(
    alloc: Global,
    tables: &ProgramTables,
    program: &Program,
) -> Result<Vec<Items<u32>>, NoMemory>
    requires { tables.now ≡ program.now }
    ensures length { IfOk result (λ lists. length lists.items ≡ length (program_of program.now).classes) }
    ensures each { IfOk result (λ lists. RegionsUnfold (program_of program.now) → AreAllHolders (program_of program.now) (length (program_of program.now).regions) lists.items) }
{
    let regions = narrowed(program.regions.len())?;
    let classes = narrowed(tables.class_count())?;
    let instances = RegionInstances::build(alloc, program)?;
    holders(alloc, &instances, regions, classes)
}

/// The tables of a program.
pub fn build_tables(alloc: Global, program: &Program) -> Result<Tables<'_>, NoMemory>
    ensures tables { IfOk result (λ made. AreTables made) }
    ensures program { IfOk result (λ made. made.program.now ≡ program.now) }
{
    let tables = ProgramTables::build(alloc, program)?;
    let routines = routine_tables(alloc, &tables, program)?;
    let signatures = signature_tables(alloc, program)?;
    let conformers = Conformers::build(alloc, &tables, program)?;
    let holders = class_holders(alloc, &tables, program)?;
    let inputs = inputs(alloc, program)?;
    Ok(Tables {
        program,
        tables,
        routines,
        signatures,
        conformers,
        holders,
        inputs,
    })
}
