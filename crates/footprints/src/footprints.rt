//! The regions that the cycles of a task touch, and those that they write.

ghost use Rattle.std.specs.Prelude.{◌≡◌, true, IfOk, OnOk};
ghost use Rattle.std.specs.Ordering.{nat_cmp};
ghost use Rattle.std.specs.List.Sorted.{IsStrictlySortedBy};
ghost use Rattle.st_values.specs.View.{program_of};
ghost use Rattle.st_meaning.specs.st_frame.Footprint.{IsFootprint};
ghost use Rattle.region_instances.specs.Instances.{RegionsUnfold};
ghost use Rattle.footprints.specs.Footprints.{IsWritten};
ghost use Rattle.footprints.specs.Private.Puts.{Puts, Via};
ghost use Rattle.footprints.specs.Private.Inputs as words;
ghost use Rattle.footprints.specs.Private.Tables.{AreTables};

use crate::inputs::is_marked;
use crate::marks::{Marks, listed, put};
use crate::tables::{Tables, build_tables};
use crate::walk::{Part, collect};
use plc_text::NoMemory;
use st_tree::Program;
use std::alloc::Global;
use std::marker::Model;

/// What tells the footprints of all tasks of a program, which contracts see as the program.
pub struct Footprints<'p> {
    tables: Tables<'p>,
}

// By hand, so that a drop is one call: a derived one is written out wherever a `?` may need it.
impl Drop for Footprints<'_> {
    fn drop(self) {
        let Footprints { tables: _ } = self;
    }
}

impl<'p> Model for Footprints<'p> {
    ghost use Rattle.st_tree.specs.declared.program.Program.{Program};

    ghost Value = { Program };

    ghost use Rattle.st_tree.specs.contracts.program.Program as program_type;

    ghost coded = { program_type.the_row.coded };

    ghost use Rattle.footprints.specs.Private.Tables.{AreTables};

    ghost view = { λ f. f.tables.program.now };

    ghost invariant = { λ f. AreTables f.tables };
}

fn put_input(marks: &mut Marks, inputs: &[bool], region: u32) -> Result<(), NoMemory>
    ensures { OnOk result (Puts (words.IsInput inputs.now region) marks.old.keys marks.new.keys) }
{
    if is_marked(inputs, region) {
        put(marks, region)?;
        Ok(())
    } else {
        Ok(())
    }
}

/// Puts those regions into the set that hold inputs.
fn put_inputs(marks: &mut Marks, inputs: &[bool], regions: &[u32]) -> Result<(), NoMemory>
    ensures { OnOk result (Puts (Via regions.now (words.IsInput inputs.now)) marks.old.keys marks.new.keys) }
{
    let mut left = regions;
    'regions: while let Some((region, behind)) = left.split_first() {
        put_input(marks, inputs, *region)?;
        left = behind;
    }
    Ok(())
}

fn footprint_by(alloc: Global, t: &Tables<'_>, task: u32) -> Result<Vec<u32>, NoMemory>
    requires { AreTables t.now }
    ensures rising { IfOk result (λ list. IsStrictlySortedBy nat_cmp list.items) }
    ensures exact { IfOk result (λ list. RegionsUnfold (program_of t.now.program.now) → IsFootprint (program_of t.now.program.now) task list.items) }
{
    let marks = collect(alloc, t, Part::Touched, task)?;
    let list = listed(alloc, &marks)?;
    Ok(list)
}

fn writes_by(alloc: Global, t: &Tables<'_>, task: u32) -> Result<Vec<u32>, NoMemory>
    requires { AreTables t.now }
    ensures rising { IfOk result (λ list. IsStrictlySortedBy nat_cmp list.items) }
    ensures exact { IfOk result (λ list. RegionsUnfold (program_of t.now.program.now) → IsWritten (program_of t.now.program.now) task list.items) }
{
    let touched = footprint_by(alloc, t, task)?;
    let mut marks = collect(alloc, t, Part::Altered, task)?;
    put_inputs(&mut marks, t.inputs.as_slice(), touched.as_slice())?;
    let list = listed(alloc, &marks)?;
    Ok(list)
}

impl<'p> Footprints<'p> {
    /// What tells the footprints of a program's tasks.
    pub fn build(alloc: Global, program: &'p Program) -> Result<Footprints<'p>, NoMemory>
        ensures { IfOk result (λ made. made ≡ program.now) }
    {
        let tables = build_tables(alloc, program)?;
        Ok(Footprints { tables })
    }

    /// The regions that the cycles of a task touch, in rising order. The types of the regions are to unfold, as those of each accepted
    /// program do. The text of each routine that the task reaches is looked at once, and each type is asked for once.
    pub fn footprint(&self, alloc: Global, task: u32) -> Result<Vec<u32>, NoMemory>
        ensures rising { IfOk result (λ list. IsStrictlySortedBy nat_cmp list.items) }
        ensures exact { IfOk result (λ list. RegionsUnfold (program_of self.now) → IsFootprint (program_of self.now) task list.items) }
    {
        let list = footprint_by(alloc, &self.tables, task)?;
        Ok(list)
    }

    /// The regions that the cycles of a task may write, in rising order: with `footprint` it takes twice its time.
    pub fn writes(&self, alloc: Global, task: u32) -> Result<Vec<u32>, NoMemory>
        ensures rising { IfOk result (λ list. IsStrictlySortedBy nat_cmp list.items) }
        ensures exact { IfOk result (λ list. RegionsUnfold (program_of self.now) → IsWritten (program_of self.now) task list.items) }
    {
        let list = writes_by(alloc, &self.tables, task)?;
        Ok(list)
    }
}

/// The regions that the cycles of a task touch, in rising order. For several tasks of a program, build `Footprints` once.
pub fn footprint(alloc: Global, program: &Program, task: u32) -> Result<Vec<u32>, NoMemory>
    ensures rising { IfOk result (λ list. IsStrictlySortedBy nat_cmp list.items) }
    ensures exact { IfOk result (λ list. RegionsUnfold (program_of program.now) → IsFootprint (program_of program.now) task list.items) }
{
    let tables = build_tables(alloc, program)?;
    let list = footprint_by(alloc, &tables, task)?;
    Ok(list)
}

/// The regions that the cycles of a task may write, in rising order. For several tasks of a program, build `Footprints` once.
pub fn writes(alloc: Global, program: &Program, task: u32) -> Result<Vec<u32>, NoMemory>
    ensures rising { IfOk result (λ list. IsStrictlySortedBy nat_cmp list.items) }
    ensures exact { IfOk result (λ list. RegionsUnfold (program_of program.now) → IsWritten (program_of program.now) task list.items) }
{
    let tables = build_tables(alloc, program)?;
    let list = writes_by(alloc, &tables, task)?;
    Ok(list)
}
