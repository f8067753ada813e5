//! How deep written types are, and those of the variables and of the result of a routine.

ghost use Rattle.std.specs.Prelude.{◌≡◌, not, filter, flat_map, IfOk};
ghost use Rattle.st_rules.specs.Faults.{least};
ghost use Rattle.st_rules.specs.Scope as scope;
ghost use Rattle.st_unit_rules.specs.declared_names.Declarations.{declarations};
ghost use Rattle.st_unit_rules.specs.DeclarationRules as rules;
ghost use Rattle.check_limits.specs.type_sizes.Sizes.{Measures};
ghost use Rattle.check_limits.specs.limit_rules.Depths.{depth_faults};
ghost use Rattle.check_routines.specs.depth_rules.Private.Depths.{section_too_deep};

use check_declared_variables::check_type;
use check_limits::{TypeSizes, Within, too_deep};
use declared_graph::DeclaredGraph;
use name_resolution::Scope;
use plc_text::{Code, NoMemory};
use st_rules::{earlier, is_external};
use st_tree::{Item, Section, TypeSpec};
use st_unit_rules::declaration_list::item_line;
use std::alloc::Global;

/// E16 at the line, where a written type has too many steps of containment, or too many dimensions. The sizes are those of the unit
/// that the scope sees. It takes time linear in the text.
pub fn type_depth_fault(
    alloc: Global,
    s: &Scope<'_>,
    sizes: &TypeSizes,
    graph: &DeclaredGraph,
    within: Within,
    line: u32,
    spec: &TypeSpec<u32>,
) -> Result<Option<(Code, u32)>, NoMemory>
    requires { Measures sizes.now s.now }
    ensures { IfOk result (λ f. f ≡ least (depth_faults within s.now (declarations graph.now.decls) line spec.now)) }
{
    let found = check_type(alloc, s, spec)?;
    Ok(too_deep(sizes, graph, within, line, spec, &found.kind))
}

fn item_depth_fault(
    alloc: Global,
    s: &Scope<'_>,
    sizes: &TypeSizes,
    graph: &DeclaredGraph,
    item: &Item<u32>,
) -> Result<Option<(Code, u32)>, NoMemory>
    requires { Measures sizes.now s.now }
    ensures { IfOk result (λ f. f ≡ least (rules.item_too_deep graph.now.decls s.now item.now)) }
{
    let line = item_line(item);
    let found = type_depth_fault(alloc, s, sizes, graph, Within::Variable, line, &item.kind)?;
    Ok(found)
}

/// E16 at the least line of an item whose type is too deep.
fn list_depth_fault(
    alloc: Global,
    s: &Scope<'_>,
    sizes: &TypeSizes,
    graph: &DeclaredGraph,
    items: &[Item<u32>],
) -> Result<Option<(Code, u32)>, NoMemory>
    requires { Measures sizes.now s.now }
    ensures { IfOk result (λ f. f ≡ least (flat_map (rules.item_too_deep graph.now.decls s.now) items.now)) }
{
    let mut found = None;
    for item in items {
        let one = item_depth_fault(alloc, s, sizes, graph, item)?;
        found = earlier(found, one);
    }
    Ok(found)
}

/// E16 at the least line of an item of a section whose type is too deep. Externals are no locals.
fn section_depth_fault(
    alloc: Global,
    s: &Scope<'_>,
    sizes: &TypeSizes,
    graph: &DeclaredGraph,
    section: &Section<u32>,
) -> Result<Option<(Code, u32)>, NoMemory>
    requires { Measures sizes.now s.now }
    ensures { IfOk result (λ f. f ≡ least (section_too_deep graph.now.decls s.now section.now)) }
{
    if is_external(section.sort) {
        return Ok(None);
    }
    let items = section.items.as_slice();
    let found = list_depth_fault(alloc, s, sizes, graph, items)?;
    Ok(found)
}

/// E16 at the least line of an item of sections, without those of externals, whose type is too deep.
pub fn items_depth_fault(
    alloc: Global,
    s: &Scope<'_>,
    sizes: &TypeSizes,
    graph: &DeclaredGraph,
    sections: &[Section<u32>],
) -> Result<Option<(Code, u32)>, NoMemory>
    requires { Measures sizes.now s.now }
    ensures { IfOk result (λ f. f ≡ least (flat_map (rules.item_too_deep graph.now.decls s.now) (rules.items_in (filter (λ x. not (scope.is_external x.sort)) sections.now)))) }
{
    let mut found = None;
    for section in sections {
        let own = section_depth_fault(alloc, s, sizes, graph, section)?;
        found = earlier(found, own);
    }
    Ok(found)
}

/// E16 at the line of a routine whose result is too deep, where it has one.
pub fn result_depth_fault(
    alloc: Global,
    s: &Scope<'_>,
    sizes: &TypeSizes,
    graph: &DeclaredGraph,
    line: u32,
    spec: &Option<TypeSpec<u32>>,
) -> Result<Option<(Code, u32)>, NoMemory>
    requires { Measures sizes.now s.now }
    ensures { IfOk result (λ f. f ≡ least (rules.result_too_deep graph.now.decls s.now line spec.now)) }
{
    match spec {
        Some(spec) => {
            let found = type_depth_fault(alloc, s, sizes, graph, Within::Variable, line, spec)?;
            Ok(found)
        }
        None => Ok(None),
    }
}
