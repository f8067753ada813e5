//! What declarations contain by value.

ghost use Rattle.std.specs.Prelude.{◌≡◌, ◌++◌, map, flat_map, IfOk, OnOk};
ghost use Rattle.st_unit_rules.specs.Cycles as cycles;
ghost use Rattle.st_unit_rules.specs.declaration_list.Listed.{declared_as};
ghost use Rattle.declared_graph.specs.Private.Known.{declared, AreTables};
ghost use Rattle.declared_graph.specs.Private.Edges.{edges_to, edges_from};
ghost use Rattle.declared_graph.specs.Private.Contained.{group_places, name_places, contained_of};

use crate::edges::add_edge;
use crate::known::Known;
use graph_cycles::Edge;
use plc_text::NoMemory;
use st_tree::{ClassDecl, FieldGroup, SimpleSpec, TypeBody, Used};
use st_unit_rules::declaration_list::{Declared, WrittenName, written_members};
use std::alloc::Global;

#[tactic(auto, using(crate::proofs::PlaceLaws::told_type))]
pub fn add_element(
    known: &Known<'_>,
    edges: &mut Vec<Edge>,
    from: usize,
    element: &SimpleSpec<u32>,
) -> Result<(), NoMemory>
    requires { AreTables known.now }
    ensures { OnOk result (edges.new.items ≡ edges.old.items ++ edges_to from (cycles.types_named (declared known.now) (cycles.element_names element.now))) }
{
    match element {
        SimpleSpec::Named(_, name) => add_edge(edges, from, known.type_place(name))?,
        SimpleSpec::Elementary(_, _) => {}
        SimpleSpec::Reference(_, _, _) => {}
    }
    Ok(())
}

#[tactic(auto, using(crate::proofs::PlaceLaws::told_class))]
fn add_base(
    known: &Known<'_>,
    edges: &mut Vec<Edge>,
    from: usize,
    base: &Option<Used<u32>>,
) -> Result<(), NoMemory>
    requires { AreTables known.now }
    ensures { OnOk result (edges.new.items ≡ edges.old.items ++ edges_to from (cycles.base_place (declared known.now) base.now)) }
{
    if let Some(base) = base {
        add_edge(edges, from, known.class_place(&base.text))?;
    }
    Ok(())
}

fn add_groups(
    known: &Known<'_>,
    edges: &mut Vec<Edge>,
    from: usize,
    groups: &[FieldGroup<u32>],
) -> Result<(), NoMemory>
    requires { AreTables known.now }
    ensures { OnOk result (edges.new.items ≡ edges.old.items ++ edges_to from (flat_map (group_places (declared known.now)) groups.now)) }
{
    for group in groups {
        add_element(known, edges, from, &group.kind.element)?;
    }
    Ok(())
}

fn add_name(
    known: &Known<'_>,
    edges: &mut Vec<Edge>,
    from: usize,
    name: &WrittenName<'_>,
) -> Result<(), NoMemory>
    requires { AreTables known.now }
    ensures { OnOk result (edges.new.items ≡ edges.old.items ++ edges_to from (name_places (declared known.now) name.now)) }
{
    if name.is_kept() {
        add_element(known, edges, from, &name.item.kind.element)?;
    }
    Ok(())
}

fn add_names(
    known: &Known<'_>,
    edges: &mut Vec<Edge>,
    from: usize,
    names: &[WrittenName<'_>],
) -> Result<(), NoMemory>
    requires { AreTables known.now }
    ensures { OnOk result (edges.new.items ≡ edges.old.items ++ edges_to from (flat_map (name_places (declared known.now)) names.now)) }
{
    for name in names {
        add_name(known, edges, from, name)?;
    }
    Ok(())
}

fn add_class(
    alloc: Global,
    known: &Known<'_>,
    edges: &mut Vec<Edge>,
    from: usize,
    class: &ClassDecl<u32>,
) -> Result<(), NoMemory>
    requires { AreTables known.now }
    ensures { OnOk result (edges.new.items ≡ edges.old.items ++ edges_to from (cycles.contained_in_class (declared known.now) class.now)) }
{
    let names = written_members(alloc, class.members.as_slice())?;
    add_base(known, edges, from, &class.base)?;
    add_names(known, edges, from, &names)?;
    Ok(())
}

#[tactic(auto, using(crate::proofs::ContainedLaws::groups_are))]
fn add_body(
    known: &Known<'_>,
    edges: &mut Vec<Edge>,
    from: usize,
    body: &TypeBody<u32>,
) -> Result<(), NoMemory>
    requires { AreTables known.now }
    ensures { OnOk result (edges.new.items ≡ edges.old.items ++ edges_to from (cycles.contained_in_body (declared known.now) body.now)) }
{
    match body {
        TypeBody::Alias(spec) => add_element(known, edges, from, &spec.element)?,
        TypeBody::Enumeration(_) => {}
        TypeBody::Structure(groups) => add_groups(known, edges, from, groups.as_slice())?,
    }
    Ok(())
}

/// Adds edges to what a declaration contains.
fn add_contained(
    alloc: Global,
    known: &Known<'_>,
    edges: &mut Vec<Edge>,
    from: usize,
    item: &Declared<'_>,
) -> Result<(), NoMemory>
    requires { AreTables known.now }
    ensures { OnOk result (edges.new.items ≡ edges.old.items ++ edges_to from (contained_of (declared known.now) item.now)) }
{
    match item {
        Declared::Entry(entry) => add_body(known, edges, from, &entry.body)?,
        Declared::Class(class) => add_class(alloc, known, edges, from, class)?,
        Declared::Global(_) => {}
        Declared::Interface(_) => {}
        Declared::Function(_) => {}
        Declared::Program(_) => {}
        Declared::Configuration(_) => {}
    }
    Ok(())
}

/// The edges from each declaration to what it contains directly.
pub fn contained_edges(alloc: Global, known: &Known<'_>) -> Result<Vec<Edge>, NoMemory>
    requires { AreTables known.now }
    ensures { IfOk result (λ edges. edges.items ≡ edges_from 0 (map (contained_of (declared known.now)) known.now.list.now)) }
{
    let mut edges = Vec::new(alloc);
    for (i, declared) in known.list.iter().enumerate() {
        add_contained(alloc, known, &mut edges, i, declared)?;
    }
    Ok(edges)
}
