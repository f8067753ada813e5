//! What must be told before an alias or a constant can be told.

ghost use Rattle.std.specs.Prelude.{◌≡◌, ◌++◌, ◌&&◌, length, map, flat_map, IfOk, OnOk};
ghost use Rattle.st_unit_rules.specs.Cycles as cycles;
ghost use Rattle.st_unit_rules.specs.declaration_list.Written.{global_of};
ghost use Rattle.declared_graph.specs.Private.Known.{declared, AreTables};
ghost use Rattle.declared_graph.specs.Private.Edges.{edges_to, edges_from};
ghost use Rattle.declared_graph.specs.Private.Names.{named_as};
ghost use Rattle.declared_graph.specs.Private.Needed.{needed_for_lent, needed_by_item, needed_by_global, needed_of, is_first_of};

use crate::contained::add_element;
use crate::edges::add_edge;
use crate::hubs::hub_node;
use crate::known::Known;
use crate::names::Named;
use crate::texts::{bound_names, item_names};
use graph_cycles::Edge;
use plc_text::NoMemory;
use st_tree::{Item, TypeBody, TypeSpec};
use st_unit_rules::declaration_list::{Declared, WrittenName};
use std::alloc::Global;

/// Adds edges to what a name may mean.
#[tactic(auto, using(crate::proofs::PlaceLaws::told_type, crate::proofs::PlaceLaws::told_constant))]
fn add_named(
    known: &Known<'_>,
    edges: &mut Vec<Edge>,
    from: usize,
    named: &Named<'_>,
) -> Result<(), NoMemory>
    requires { AreTables known.now }
    ensures { OnOk result (edges.new.items ≡ edges.old.items ++ edges_to from (cycles.needed_for (declared known.now) (named_as named.now))) }
{
    match named {
        Named::Alone(name) => add_edge(edges, from, known.constant_place(*name))?,
        Named::BeforeDot(name) => {
            add_edge(edges, from, known.constant_place(*name))?;
            add_edge(edges, from, known.type_place(*name))?
        }
        Named::BeforeHash(_, name) => add_edge(edges, from, known.type_place(*name))?,
    }
    Ok(())
}

fn add_names(
    known: &Known<'_>,
    edges: &mut Vec<Edge>,
    from: usize,
    names: &[Named<'_>],
) -> Result<(), NoMemory>
    requires { AreTables known.now }
    ensures { OnOk result (edges.new.items ≡ edges.old.items ++ edges_to from (flat_map (needed_for_lent (declared known.now)) names.now)) }
{
    for named in names {
        add_named(known, edges, from, named)?;
    }
    Ok(())
}

fn add_type(
    alloc: Global,
    known: &Known<'_>,
    edges: &mut Vec<Edge>,
    from: usize,
    spec: &TypeSpec<u32>,
) -> Result<(), NoMemory>
    requires { AreTables known.now }
    ensures { OnOk result (edges.new.items ≡ edges.old.items ++ edges_to from (cycles.needed_by_type (declared known.now) spec.now)) }
{
    let names = bound_names(alloc, spec)?;
    add_element(known, edges, from, &spec.element)?;
    add_names(known, edges, from, &names)?;
    Ok(())
}

fn add_item(
    alloc: Global,
    known: &Known<'_>,
    edges: &mut Vec<Edge>,
    from: usize,
    item: &Item<u32>,
) -> Result<(), NoMemory>
    requires { AreTables known.now }
    ensures { OnOk result (edges.new.items ≡ edges.old.items ++ edges_to from (needed_by_item (declared known.now) item.now)) }
{
    let names = item_names(alloc, item)?;
    add_element(known, edges, from, &item.kind.element)?;
    add_names(known, edges, from, &names)?;
    Ok(())
}

fn add_body(
    alloc: Global,
    known: &Known<'_>,
    edges: &mut Vec<Edge>,
    from: usize,
    body: &TypeBody<u32>,
) -> Result<(), NoMemory>
    requires { AreTables known.now }
    ensures { OnOk result (edges.new.items ≡ edges.old.items ++ edges_to from (cycles.needed_by_body (declared known.now) body.now)) }
{
    match body {
        TypeBody::Alias(spec) => add_type(alloc, known, edges, from, spec)?,
        TypeBody::Enumeration(_) => {}
        TypeBody::Structure(_) => {}
    }
    Ok(())
}

/// Whether a global is the first of an item of constants.
fn is_first_constant(global: &WrittenName<'_>) -> bool
    ensures { result ≡ ((global_of global.now).first && (global_of global.now).written.constant) }
{
    global.first && global.is_constant()
}

fn add_global(
    alloc: Global,
    known: &Known<'_>,
    edges: &mut Vec<Edge>,
    from: usize,
    global: &WrittenName<'_>,
) -> Result<(), NoMemory>
    requires { AreTables known.now }
    ensures { OnOk result (edges.new.items ≡ edges.old.items ++ edges_to from (needed_by_global (declared known.now) (global_of global.now))) }
{
    if is_first_constant(global) {
        add_item(alloc, known, edges, from, global.item)?;
    }
    Ok(())
}

/// Adds edges to what a declaration needs, once for all names of an item.
#[tactic(auto, using(crate::proofs::NeededLaws::global_needs))]
fn add_needed(
    alloc: Global,
    known: &Known<'_>,
    edges: &mut Vec<Edge>,
    from: usize,
    item: &Declared<'_>,
) -> Result<(), NoMemory>
    requires { AreTables known.now }
    ensures { OnOk result (edges.new.items ≡ edges.old.items ++ edges_to from (needed_of (declared known.now) item.now)) }
{
    match item {
        Declared::Entry(entry) => add_body(alloc, known, edges, from, &entry.body)?,
        Declared::Global(global) => add_global(alloc, known, edges, from, global)?,
        Declared::Interface(_) => {}
        Declared::Class(_) => {}
        Declared::Function(_) => {}
        Declared::Program(_) => {}
        Declared::Configuration(_) => {}
    }
    Ok(())
}

fn is_first(item: &Declared<'_>) -> bool
    ensures { result ≡ is_first_of item.now }
{
    match item {
        Declared::Global(global) => global.first,
        _ => true,
    }
}

/// Whether each declaration is the first of those that need the same.
pub fn first_flags(alloc: Global, list: &[Declared<'_>]) -> Result<Vec<bool>, NoMemory>
    ensures { IfOk result (λ flags. flags.items ≡ map is_first_of list.now) }
{
    let mut flags = Vec::new(alloc);
    for item in list {
        flags.push(is_first(item))?;
    }
    Ok(flags)
}

/// Adds the edges from the hub of each declaration to what the declaration needs. The hubs have the numbers behind those of the
/// declarations.
pub fn add_all_needed(
    alloc: Global,
    known: &Known<'_>,
    edges: &mut Vec<Edge>,
) -> Result<(), NoMemory>
    requires { AreTables known.now }
    ensures { OnOk result (edges.new.items ≡ edges.old.items ++ edges_from (length known.now.list.now) (map (needed_of (declared known.now)) known.now.list.now)) }
{
    let count = known.list.len();
    for (i, item) in known.list.iter().enumerate() {
        add_needed(alloc, known, edges, hub_node(count, i)?, item)?;
    }
    Ok(())
}
