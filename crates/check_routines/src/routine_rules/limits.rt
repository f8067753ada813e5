//! The limits of parameters, and the constants that need themselves.

ghost use Rattle.std.specs.Prelude.{◌≡◌, IfOk};
ghost use Rattle.st_rules.specs.Faults.{least};
ghost use Rattle.check_routines.specs.routine_rules.Parts.{Serves};
ghost use Rattle.check_routines.specs.routine_rules.Private.Limits.{cycles_and_limits};

use crate::depth_rules::{items_depth_fault, result_depth_fault};
use crate::routine_rules::parts::UnitParts;
use check_limits::parameters_fault;
use declared_graph::inner_cycles_fault;
use name_resolution::Scope;
use plc_text::{Code, NoMemory};
use st_rules::earlier;
use st_tree::{Section, TypeSpec};
use st_unit_rules::declaration_list::written_names;
use std::alloc::Global;

/// What the constants of sections that need themselves, and the limits of parameters, break.
pub fn limits_fault(
    alloc: Global,
    s: &Scope<'_>,
    parts: &UnitParts<'_>,
    line: u32,
    spec: &Option<TypeSpec<u32>>,
    sections: &[Section<u32>],
) -> Result<Option<(Code, u32)>, NoMemory>
    requires { Serves parts.now s.now }
    ensures { IfOk result (λ f. f ≡ least (cycles_and_limits parts.now.graph.now.decls s.now line spec.now sections.now)) }
{
    let list = written_names(alloc, sections)?;
    let names = list.as_slice();
    let cycles = inner_cycles_fault(alloc, names)?;
    let many = parameters_fault(line, names);
    drop(list);
    let items = items_depth_fault(alloc, s, parts.sizes, parts.graph, sections)?;
    let deep = result_depth_fault(alloc, s, parts.sizes, parts.graph, line, spec)?;
    Ok(earlier(cycles, earlier(earlier(many, items), deep)))
}
