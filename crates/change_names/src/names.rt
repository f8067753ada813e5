//! All names of a change.

ghost use Rattle.std.specs.Prelude.{IfOk};
ghost use Rattle.st_values.specs.View.{program_of};
ghost use Rattle.change_names.specs.Names.{AreNames};
ghost use Rattle.change_names.specs.Side.{IsSide};

use crate::change_pairs::PairTable;
use crate::classes::class_tables;
use crate::regions::{RegionNumbers, region_numbers};
use crate::side::Side;
use crate::structures::structure_tables;
use plc_text::NoMemory;
use std::alloc::Global;

/// What the variables, fields and regions of a new program come from in the old one.
#[derive(Drop)]
pub struct ChangeNames<'p> {
    /// The variables of classes and programs, by the numbers of the new program.
    pub classes: Vec<PairTable<'p>>,
    /// The fields of structures, by the numbers of the types of the new program.
    pub structures: Vec<PairTable<'p>>,
    pub regions: RegionNumbers,
}

impl<'p> ChangeNames<'p> {
    /// The names of a change from one program to another.
    pub fn build(alloc: Global, old: &Side<'_>, new: &Side<'p>) -> Result<ChangeNames<'p>, NoMemory>
        requires old_side { IsSide old.now }
        requires new_side { IsSide new.now }
        ensures { IfOk result (λ names. AreNames (program_of old.now.program.now) (program_of new.now.program.now) names) }
    {
        let classes = class_tables(alloc, old, new)?;
        let structures = structure_tables(alloc, old, new)?;
        let regions = region_numbers(alloc, old.program, new.program)?;
        Ok(ChangeNames {
            classes,
            structures,
            regions,
        })
    }
}
