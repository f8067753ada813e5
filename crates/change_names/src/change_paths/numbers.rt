//! Where the variables of a name stand in classes and structures.

ghost use Rattle.std.specs.Prelude.{IfOk};
ghost use Rattle.st_values.specs.View.{program_of};
ghost use Rattle.change_names.specs.Side.{IsSide};
ghost use Rattle.change_names.specs.change_paths.Numbers.{AreFieldNumbers};
ghost use Rattle.change_names.specs.change_paths.Private.Places.{FindIn, FindsIn};

use crate::Side;
use crate::change_pairs::{Places, put_name};
use plc_text::{Items, NoMemory};
use program_tables::Variable;
use std::alloc::Global;
use std::collections::HashMap;

/// For each class and program, and for each type, where the first variable of each name stands.
#[derive(Drop)]
pub struct FieldNumbers {
    pub classes: Vec<Places>,
    pub structures: Vec<Places>,
}

/// Where the first variable of each name stands.
fn places(alloc: Global, all: &[Variable<'_>]) -> Result<Places, NoMemory>
    ensures { IfOk result (λ table. FindsIn table all.now) }
{
    let mut table: Places = HashMap::new(alloc);
    let mut i = all.len();
    'variables: while i > 0 {
        i -= 1;
        put_name(alloc, &mut table, all[i].name, i)?;
    }
    Ok(table)
}

/// The same of each list.
fn all_places(alloc: Global, lists: &Items<Items<Variable<'_>>>) -> Result<Vec<Places>, NoMemory>
    ensures { IfOk result (λ tables. FindIn lists.now tables.items) }
{
    let mut tables = Vec::new(alloc);
    for list in lists.as_slice() {
        let table = places(alloc, list.as_slice())?;
        tables.push(table)?;
    }
    Ok(tables)
}

impl FieldNumbers {
    /// Where the variables of the classes, programs and structures of a program stand.
    pub fn build(alloc: Global, side: &Side<'_>) -> Result<FieldNumbers, NoMemory>
        requires { IsSide side.now }
        ensures { IfOk result (λ numbers. AreFieldNumbers (program_of side.now.program.now) numbers) }
    {
        let classes = all_places(alloc, &side.members.classes)?;
        let structures = all_places(alloc, &side.members.structures)?;
        Ok(FieldNumbers {
            classes,
            structures,
        })
    }
}
