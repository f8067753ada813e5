//! Globals, whose rules were tried with their regions, one after the other.

ghost use Rattle.std.specs.Prelude.{◌≡◌, map, IfErr, OnOk};
ghost use Rattle.st_unit_rules.specs.declared_names.Declarations.{a_global};
ghost use Rattle.st_unit_rules.specs.declaration_list.Written.{global_of};
ghost use Rattle.st_check_decl.specs.unit_check.Private.Progress.{GlobalsFail, GlobalsPass};

use crate::checked_declarations::{Bad, CheckedSoFar, pass_global};
use declared_graph::DeclaredGraph;
use plc_text::Code;
use st_unit_rules::declaration_list::WrittenName;
use std::alloc::Global;

/// Passes globals that break this, each among the regions before it.
pub fn pass_globals(
    alloc: Global,
    graph: &DeclaredGraph,
    x: &mut CheckedSoFar,
    faults: &[Option<(Code, u32)>],
    names: &[WrittenName<'_>],
) -> Result<(), Bad>
    ensures passed { OnOk result (GlobalsPass x.old x.new graph.now.decls faults.now (map global_of names.now)) }
    ensures bad { IfErr result (λ b. GlobalsFail b x.old graph.now.decls faults.now (map global_of names.now)) }
{
    let mut left = faults;
    for name in names {
        let Some((fault, behind)) = left.split_first() else {
            return Ok(());
        };
        pass_global(alloc, graph, x, *fault, name)?;
        left = behind;
    }
    Ok(())
}
