//! All limits of a class.

ghost use Rattle.std.specs.Prelude.{◌≡◌, IfOk};
ghost use Rattle.st_unit_rules.specs.declared_names.UnitNames.{class_scope, unit_names};
ghost use Rattle.st_rules.specs.Classes as classes;
ghost use Rattle.st_rules.specs.Faults.{least};
ghost use Rattle.st_unit_rules.specs.DeclarationRules as rules;
ghost use Rattle.check_limits.specs.type_sizes.Sizes.{Measures};
ghost use Rattle.check_classes.specs.class_limit_rules.Private.Limits.{depths};

use crate::class_limit_rules::counts::counts_fault;
use check_limits::{TypeSizes, class_too_deep};
use check_routines::body_depth_fault;
use declared_graph::DeclaredGraph;
use name_resolution::Scope;
use plc_text::{Code, NoMemory};
use st_rules::earlier;
use st_tree::ClassDecl;
use st_unit_rules::declaration_list::written_members;
use std::alloc::Global;
use symbol_table::unit_tables::UnitTables;

/// What the depth of a class and that of the locals of its body break, where it is the declaration at this place.
fn depths_fault(
    alloc: Global,
    s: &Scope<'_>,
    sizes: &TypeSizes,
    graph: &DeclaredGraph,
    place: usize,
    class: u32,
    decl: &ClassDecl<u32>,
) -> Result<Option<(Code, u32)>, NoMemory>
    requires { Measures sizes.now s.now }
    ensures { IfOk result (λ f. f ≡ least (depths graph.now.decls s.now place class decl.now)) }
{
    let members = decl.members.as_slice();
    let list = written_members(alloc, members)?;
    let names = list.as_slice();
    let own = class_too_deep(sizes, graph, decl.line, place, class);
    let of_body = body_depth_fault(alloc, s, sizes, graph, names)?;
    Ok(earlier(own, of_body))
}

/// E16 of the class of this number, which is the declaration at this place and whose chain this is, in its scope: the least line at which
/// its methods, its bases, its depth, or the parameters and locals of its body pass a limit.
pub fn class_limit_fault(
    alloc: Global,
    s: &Scope<'_>,
    tables: &UnitTables<'_>,
    place: usize,
    class: u32,
    chain: &[u32],
    decl: &ClassDecl<u32>,
) -> Result<Option<(Code, u32)>, NoMemory>
    requires scope { s.now ≡ class_scope tables.now.decls (unit_names tables.now.decls) class }
    requires chain { chain.now ≡ classes.chain (classes.classes_in tables.now.decls) class }
    ensures { IfOk result (λ f. f ≡ least (rules.class_limits tables.now.decls s.now place class decl.now)) }
{
    let sizes = tables.sizes();
    let graph = tables.graph();
    let classes = tables.class_tables();
    let counts = counts_fault(alloc, s, sizes, classes, class, chain, decl)?;
    let depths = depths_fault(alloc, s, sizes, graph, place, class, decl)?;
    Ok(earlier(counts, depths))
}
