//! The store with which a program begins.

ghost use Rattle.std.specs.Prelude.{◌≡◌, IfOk};
ghost use Rattle.st_values.specs.Initial as words;
ghost use Rattle.st_values.specs.View.{program_of, region_of};
ghost use Rattle.program_tables.specs.st_initial.Members as tables;
ghost use Rattle.value_trees.specs.Value.{value_of, members_of};

use crate::trees::{push_member, value_of_region};
use plc_text::{NoMemory, Series};
use program_tables::members_of;
use st_tree::Program;
use std::alloc::Global;
use value_trees::Member;

/// The regions with the values with which they begin, in the order of their numbers.
pub fn initial_store(alloc: Global, program: &Program) -> Result<Series<Member>, NoMemory>
    ensures { IfOk result (λ store. members_of store ≡ words.initial_store (program_of program.now)) }
{
    let members = members_of(alloc, program)?;
    let mut store = Series::new(alloc);
    for region in program.regions.as_slice() {
        let value = value_of_region(alloc, program, &members, region)?;
        push_member(alloc, &mut store, &region.name, value)?;
    }
    Ok(store)
}
