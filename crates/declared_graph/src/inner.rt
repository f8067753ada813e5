//! Constants of a class or a routine that need themselves.

ghost use Rattle.std.specs.Prelude.{◌≡◌, ◌++◌, ◌&&◌, ℕ, List, length, map, flat_map, IfOk, OnOk};
ghost use Rattle.st_tree.specs.declared.declaration.Section.{Section as ASection};
ghost use Rattle.st_rules.specs.Faults.{least};
ghost use Rattle.st_unit_rules.specs.declared_names.Variables.{sections_written};
ghost use Rattle.st_unit_rules.specs.Cycles as cycles;
ghost use Rattle.st_unit_rules.specs.declaration_list.Written.{global_of, written_of, names_in_sections};
ghost use Rattle.declared_graph.specs.Private.Edges.{edges_to, edges_from};
ghost use Rattle.declared_graph.specs.Private.Names.{named_as};
ghost use Rattle.declared_graph.specs.Private.Inner.{inner_found, inner_constant, found_for, found_for_lent, IsInnerTable, IsPut, is_first_name, needed_by_item, needed_of, marked_fault as own_marked_fault, marked_faults, OnCycles};

use crate::edges::add_edge;
use crate::graph::is_marked;
use crate::hubs::{cycles_by_hubs, hub_edges, hub_node};
use crate::names::Named;
use crate::texts::item_names;
use graph_cycles::Edge;
use plc_text::{Code, NoMemory, Text};
use st_rules::{earlier, when};
use st_tree::Item;
use st_unit_rules::declaration_list::{WrittenName, item_line};
use std::alloc::Global;
use std::collections::HashMap;

/// Of each name, where its first declaration stands, if that is a constant.
type Constants = HashMap<Text, Option<usize>>;

fn place_if(constant: bool, place: usize) -> Option<usize>
    ensures { result ≡ inner_constant constant place }
{
    if constant { Some(place) } else { None }
}

fn put(table: &mut Constants, key: Text, place: Option<usize>) -> Result<(), NoMemory>
    ensures { OnOk result (IsPut table.old table.new key place) }
{
    table.insert(key, place)?;
    Ok(())
}

fn constants(alloc: Global, names: &[WrittenName<'_>]) -> Result<Constants, NoMemory>
    ensures { IfOk result (λ table. IsInnerTable table (map written_of names.now)) }
{
    let mut table: Constants = HashMap::new(alloc);
    let mut i = names.len();
    'places: while i > 0 {
        i -= 1;
        let name = &names[i];
        let key = Text::copy(alloc, name.name.text.as_str())?;
        put(&mut table, key, place_if(name.is_constant(), i))?;
    }
    Ok(table)
}

fn constant_named(table: &Constants, name: &Text) -> Option<usize>
    ensures { result ≡ inner_found table.now name.now }
{
    match table.get(name) {
        Some(place) => *place,
        None => None,
    }
}

/// Adds edges to the constant that a name may mean.
#[tactic(auto, using(crate::proofs::PlaceLaws::told_one))]
fn add_named(
    table: &Constants,
    edges: &mut Vec<Edge>,
    from: usize,
    named: &Named<'_>,
) -> Result<(), NoMemory>
    ensures { OnOk result (edges.new.items ≡ edges.old.items ++ edges_to from (found_for table.now (named_as named.now))) }
{
    match named {
        Named::Alone(name) => add_edge(edges, from, constant_named(table, *name))?,
        Named::BeforeDot(name) => add_edge(edges, from, constant_named(table, *name))?,
        Named::BeforeHash(_, _) => {}
    }
    Ok(())
}

fn add_names(
    table: &Constants,
    edges: &mut Vec<Edge>,
    from: usize,
    names: &[Named<'_>],
) -> Result<(), NoMemory>
    ensures { OnOk result (edges.new.items ≡ edges.old.items ++ edges_to from (flat_map (found_for_lent table.now) names.now)) }
{
    for named in names {
        add_named(table, edges, from, named)?;
    }
    Ok(())
}

#[tactic(auto, using(crate::proofs::InnerLaws::item_needs))]
fn add_item(
    alloc: Global,
    table: &Constants,
    edges: &mut Vec<Edge>,
    from: usize,
    item: &Item<u32>,
) -> Result<(), NoMemory>
    ensures { OnOk result (edges.new.items ≡ edges.old.items ++ edges_to from (needed_by_item table.now item.now)) }
{
    let names = item_names(alloc, item)?;
    add_names(table, edges, from, &names)?;
    Ok(())
}

/// Whether a name is the first of an item of constants.
fn is_first_constant(name: &WrittenName<'_>) -> bool
    ensures { result ≡ (name.now.first && (written_of name.now).constant) }
{
    name.first && name.is_constant()
}

/// Adds edges to what a name needs, once for all names of an item.
fn add_needed(
    alloc: Global,
    table: &Constants,
    edges: &mut Vec<Edge>,
    from: usize,
    name: &WrittenName<'_>,
) -> Result<(), NoMemory>
    ensures { OnOk result (edges.new.items ≡ edges.old.items ++ edges_to from (needed_of table.now name.now)) }
{
    if is_first_constant(name) {
        add_item(alloc, table, edges, from, name.item)?;
    }
    Ok(())
}

fn add_all_needed(
    alloc: Global,
    table: &Constants,
    edges: &mut Vec<Edge>,
    names: &[WrittenName<'_>],
) -> Result<(), NoMemory>
    ensures { OnOk result (edges.new.items ≡ edges.old.items ++ edges_from (length names.now) (map (needed_of table.now) names.now)) }
{
    let count = names.len();
    for (i, name) in names.iter().enumerate() {
        add_needed(alloc, table, edges, hub_node(count, i)?, name)?;
    }
    Ok(())
}

fn first_flags(alloc: Global, names: &[WrittenName<'_>]) -> Result<Vec<bool>, NoMemory>
    ensures { IfOk result (λ flags. flags.items ≡ map is_first_name names.now) }
{
    let mut flags = Vec::new(alloc);
    for name in names {
        flags.push(name.first)?;
    }
    Ok(flags)
}

/// Which constants need themselves.
fn on_cycles(alloc: Global, names: &[WrittenName<'_>]) -> Result<Vec<bool>, NoMemory>
    ensures { IfOk result (λ marks. (sections : List (ASection ℕ)) → map global_of names.now ≡ names_in_sections sections → OnCycles marks.items (map written_of names.now)) }
{
    let table = constants(alloc, names)?;
    let flags = first_flags(alloc, names)?;
    let mut edges = hub_edges(alloc, &flags)?;
    add_all_needed(alloc, &table, &mut edges, names)?;
    let marks = cycles_by_hubs(alloc, &flags, &edges)?;
    Ok(marks)
}

/// E06 at the item of a constant that is marked.
fn mark_fault(marks: &[bool], i: usize, name: &WrittenName<'_>) -> Option<(Code, u32)>
    ensures { result ≡ least (own_marked_fault marks.now i (written_of name.now)) }
{
    when(is_marked(marks, i), Code::E06, item_line(name.item))
}

/// E06 at the least line of an item with a constant that is marked.
fn marked_fault(marks: &[bool], names: &[WrittenName<'_>]) -> Option<(Code, u32)>
    ensures { result ≡ least (marked_faults marks.now (map written_of names.now)) }
{
    let mut found = None;
    for (i, name) in names.iter().enumerate() {
        found = earlier(found, mark_fault(marks, i, name));
    }
    found
}

/// E06 at the least line of an item with a constant of a class or a routine that needs itself.
pub fn inner_cycles_fault(
    alloc: Global,
    names: &[WrittenName<'_>],
) -> Result<Option<(Code, u32)>, NoMemory>
    ensures { IfOk result (λ f. (sections : List (ASection ℕ)) → map global_of names.now ≡ names_in_sections sections → f ≡ least (cycles.inner_cycles (sections_written sections))) }
{
    let marks = on_cycles(alloc, names)?;
    Ok(marked_fault(&marks, names))
}
