//! How deep the types of variables of programs, classes and function blocks are. What an item says is looked at with its first name.

ghost use Rattle.std.specs.Prelude.{◌≡◌, ℕ, ◌-◌, List, map, flat_map, filter, IfOk};
ghost use Rattle.st_tree.specs.declared.declaration.Section.{Section as ASection};
ghost use Rattle.st_rules.specs.Faults.{least};
ghost use Rattle.st_unit_rules.specs.declared_names.Declarations.{declarations};
ghost use Rattle.st_unit_rules.specs.declared_names.Variables.{is_kept_written, is_body_written, sections_written};
ghost use Rattle.st_unit_rules.specs.declaration_list.Written.{global_of, names_in_sections};
ghost use Rattle.st_unit_rules.specs.DeclarationRules as rules;
ghost use Rattle.st_unit_rules.specs.Limits as limits;
ghost use Rattle.check_limits.specs.type_sizes.Sizes.{Measures};
ghost use Rattle.check_routines.specs.depth_rules.Private.Variables.{in_program, with_first};

use crate::depth_rules::depths::type_depth_fault;
use check_limits::{TypeSizes, Within};
use declared_graph::DeclaredGraph;
use name_resolution::Scope;
use plc_text::{Code, NoMemory};
use st_rules::earlier;
use st_unit_rules::declaration_list::{WrittenName, is_of_body, item_line};
use std::alloc::Global;

/// What a name of a program breaks, whose heading stands at this line.
fn kept_name_fault(
    alloc: Global,
    s: &Scope<'_>,
    sizes: &TypeSizes,
    graph: &DeclaredGraph,
    line: u32,
    name: &WrittenName<'_>,
) -> Result<Option<(Code, u32)>, NoMemory>
    requires { Measures sizes.now s.now }
    ensures { IfOk result (λ f. f ≡ least (with_first is_kept_written (in_program graph.now.decls s.now line) (global_of name.now))) }
{
    if !(name.first && name.is_kept()) {
        return Ok(None);
    }
    let kind = &name.item.kind;
    let found = type_depth_fault(alloc, s, sizes, graph, Within::Program, line, kind)?;
    Ok(found)
}

/// E16 at the line of a program, where a variable that its instances have is too deep, by the names that its sections declare.
pub fn kept_depth_fault(
    alloc: Global,
    s: &Scope<'_>,
    sizes: &TypeSizes,
    graph: &DeclaredGraph,
    line: u32,
    names: &[WrittenName<'_>],
) -> Result<Option<(Code, u32)>, NoMemory>
    requires { Measures sizes.now s.now }
    ensures { IfOk result (λ f. (ss : List (ASection ℕ)) → map global_of names.now ≡ names_in_sections ss
        → f ≡ least (flat_map (λ w. limits.too_deep s.now (declarations graph.now.decls) (limits.most_steps - 1) line w.item.kind) (filter is_kept_written (sections_written ss)))) }
{
    let mut found = None;
    for name in names {
        let one = kept_name_fault(alloc, s, sizes, graph, line, name)?;
        found = earlier(found, one);
    }
    Ok(found)
}

/// What a name breaks that only a body has.
fn body_name_fault(
    alloc: Global,
    s: &Scope<'_>,
    sizes: &TypeSizes,
    graph: &DeclaredGraph,
    name: &WrittenName<'_>,
) -> Result<Option<(Code, u32)>, NoMemory>
    requires { Measures sizes.now s.now }
    ensures { IfOk result (λ f. f ≡ least (with_first is_body_written (rules.item_too_deep graph.now.decls s.now) (global_of name.now))) }
{
    if !(name.first && is_of_body(name)) {
        return Ok(None);
    }
    let line = item_line(name.item);
    let kind = &name.item.kind;
    let found = type_depth_fault(alloc, s, sizes, graph, Within::Variable, line, kind)?;
    Ok(found)
}

/// E16 at the least line of an item with in-outs or temporary variables of a body whose type is too deep, by the names that the sections
/// declare.
pub fn body_depth_fault(
    alloc: Global,
    s: &Scope<'_>,
    sizes: &TypeSizes,
    graph: &DeclaredGraph,
    names: &[WrittenName<'_>],
) -> Result<Option<(Code, u32)>, NoMemory>
    requires { Measures sizes.now s.now }
    ensures { IfOk result (λ f. (ss : List (ASection ℕ)) → map global_of names.now ≡ names_in_sections ss
        → f ≡ least (flat_map (λ w. rules.item_too_deep graph.now.decls s.now w.item) (filter is_body_written (sections_written ss)))) }
{
    let mut found = None;
    for name in names {
        let one = body_name_fault(alloc, s, sizes, graph, name)?;
        found = earlier(found, one);
    }
    Ok(found)
}
