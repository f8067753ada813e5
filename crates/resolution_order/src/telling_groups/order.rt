//! An order of need: each group behind those whose names it needs, where it can be. Nothing is said of the order here, since no answer
//! depends on it.

use crate::telling_groups::groups::Group;
use graph_reach::{Edge, left_order};
use plc_text::{NoMemory, Text};
use st_tree::{
    Argument, ArraySpec, Bounds, ClassDecl, Expr, Init, Item, Name, Place, Root, SimpleSpec, Tail,
    TypeBody, TypeDecl, TypeSpec,
};
use st_unit_rules::declaration_list::WrittenName;
use std::alloc::Global;
use std::collections::HashMap;

/// So many bases of a class are asked for a name, which is as deep as bases may be.
const BASES: usize = 64;

type Places = HashMap<Text, usize>;

/// Where names are told: types and globals by the places of their groups, classes by their numbers.
#[derive(Drop)]
struct Known {
    types: Places,
    globals: Places,
    classes: Places,
    /// The constants of each class.
    members: Vec<Places>,
    bases: Vec<Option<usize>>,
}

fn add_first(alloc: Global, table: &mut Places, name: &Text, place: usize) -> Result<(), NoMemory> {
    if table.get(name).is_none() {
        let text = Text::copy(alloc, name.as_str())?;
        table.insert(text, place)?;
    }
    Ok(())
}

fn add_names(
    alloc: Global,
    table: &mut Places,
    names: &[Name],
    place: usize,
) -> Result<(), NoMemory> {
    for name in names {
        add_first(alloc, table, &name.text, place)?;
    }
    Ok(())
}

fn add_class(
    alloc: Global,
    known: &mut Known,
    class: &ClassDecl<u32>,
    place: usize,
) -> Result<(), NoMemory> {
    add_first(alloc, &mut known.types, &class.name.text, place)?;
    add_first(
        alloc,
        &mut known.classes,
        &class.name.text,
        known.members.len(),
    )?;
    known.members.push(HashMap::new(alloc))?;
    Ok(())
}

fn add_members(
    alloc: Global,
    members: &mut Vec<Places>,
    class: u32,
    names: &[Name],
    place: usize,
) -> Result<(), NoMemory> {
    match members.get_mut(class as usize) {
        Some(table) => add_names(alloc, table, names, place)?,
        None => {}
    }
    Ok(())
}

fn add_group(
    alloc: Global,
    known: &mut Known,
    group: &Group<'_>,
    place: usize,
) -> Result<(), NoMemory> {
    match group {
        Group::Entry(_, _, entry) => add_first(alloc, &mut known.types, &entry.name.text, place)?,
        Group::Interface(_, _, interface) => {
            add_first(alloc, &mut known.types, &interface.name.text, place)?;
        }
        Group::Class(_, _, class) => add_class(alloc, known, *class, place)?,
        Group::Globals(_, name) => {
            add_names(alloc, &mut known.globals, name.item.names.as_slice(), place)?;
        }
        Group::Members(class, _, name) => {
            let names = name.item.names.as_slice();
            add_members(alloc, &mut known.members, *class, names, place)?;
        }
    }
    Ok(())
}

fn base_of(classes: &Places, class: &ClassDecl<u32>) -> Option<usize> {
    match &class.base {
        Some(base) => classes.get(&base.text).copied(),
        None => None,
    }
}

fn add_base(known: &mut Known, group: &Group<'_>) -> Result<(), NoMemory> {
    match group {
        Group::Class(_, _, class) => {
            let base = base_of(&known.classes, *class);
            known.bases.push(base)?;
        }
        _ => {}
    }
    Ok(())
}

fn know(alloc: Global, groups: &[Group<'_>]) -> Result<Known, NoMemory> {
    let mut known = Known {
        types: HashMap::new(alloc),
        globals: HashMap::new(alloc),
        classes: HashMap::new(alloc),
        members: Vec::new(alloc),
        bases: Vec::new(alloc),
    };
    for (place, group) in groups.iter().enumerate() {
        add_group(alloc, &mut known, group, place)?;
    }
    for group in groups {
        add_base(&mut known, group)?;
    }
    Ok(known)
}

/// The group that tells a constant of a class.
fn member_place(members: &[Places], class: usize, name: &Text) -> Option<usize> {
    match members.get(class) {
        Some(table) => table.get(name).copied(),
        None => None,
    }
}

fn base_at(bases: &[Option<usize>], class: usize) -> Option<usize> {
    match bases.get(class) {
        Some(base) => *base,
        None => None,
    }
}

/// The group that tells what a name means in a class or in none.
fn value_place(known: &Known, class: Option<usize>, name: &Text) -> Option<usize> {
    let mut next = class;
    for _base in 0..BASES {
        let Some(class) = next else {
            return known.globals.get(name).copied();
        };
        let place = member_place(&known.members, class, name);
        if place.is_some() {
            return place;
        }
        next = base_at(&known.bases, class);
    }
    known.globals.get(name).copied()
}

/// A group, and the class in which it stands.
#[derive(Clone, Copy)]
struct Here<'a> {
    known: &'a Known,
    place: usize,
    class: Option<usize>,
}

fn add_edge(edges: &mut Vec<Edge>, from: usize, to: Option<usize>) -> Result<(), NoMemory> {
    if let Some(to) = to {
        edges.push(Edge { from, to })?;
    }
    Ok(())
}

fn add_type_name(name: &Text, here: &Here<'_>, edges: &mut Vec<Edge>) -> Result<(), NoMemory> {
    add_edge(edges, here.place, here.known.types.get(name).copied())
}

/// A bare name is that of a constant, or of a type before the name of a value.
fn add_place(place: &Place<u32>, here: &Here<'_>, edges: &mut Vec<Edge>) -> Result<(), NoMemory> {
    match &place.root {
        Root::Name(_, name) => {
            add_edge(edges, here.place, value_place(here.known, here.class, name))?;
            add_type_name(name, here, edges)?;
        }
        Root::This(_) => {}
        Root::Super(_) => {}
    }
    Ok(())
}

#[cycle(needed)]
fn add_expression(e: &Expr<u32>, here: &Here<'_>, edges: &mut Vec<Edge>) -> Result<(), NoMemory> {
    match e {
        Expr::Place(_, place) => add_place(place, here, edges)?,
        Expr::Call(_, _, arguments) => add_arguments(arguments.as_slice(), here, edges)?,
        Expr::Enumerator(_, name, _, _) => add_type_name(name, here, edges)?,
        Expr::Paren(_, inner) => add_expression(inner.get(), here, edges)?,
        Expr::Not(_, inner) => add_expression(inner.get(), here, edges)?,
        Expr::Negate(_, inner) => add_expression(inner.get(), here, edges)?,
        Expr::Chain(_, first, tails) => {
            add_expression(first.get(), here, edges)?;
            add_tails(tails.as_slice(), here, edges)?;
        }
        _ => {}
    }
    Ok(())
}

#[cycle(needed)]
fn add_tails(tails: &[Tail<u32>], here: &Here<'_>, edges: &mut Vec<Edge>) -> Result<(), NoMemory> {
    for tail in tails {
        add_expression(&tail.operand, here, edges)?;
    }
    Ok(())
}

#[cycle(needed)]
fn add_arguments(
    arguments: &[Argument<u32>],
    here: &Here<'_>,
    edges: &mut Vec<Edge>,
) -> Result<(), NoMemory> {
    for argument in arguments {
        match argument {
            Argument::Positional(value) => add_expression(value, here, edges)?,
            Argument::Input(_, _, value) => add_expression(value, here, edges)?,
            Argument::Output(_, _, _, _) => {}
        }
    }
    Ok(())
}

fn add_bounds(
    bounds: &[Bounds<u32>],
    here: &Here<'_>,
    edges: &mut Vec<Edge>,
) -> Result<(), NoMemory> {
    for one in bounds {
        add_expression(&one.low, here, edges)?;
        add_expression(&one.high, here, edges)?;
    }
    Ok(())
}

fn add_arrays(
    arrays: &[ArraySpec<u32>],
    here: &Here<'_>,
    edges: &mut Vec<Edge>,
) -> Result<(), NoMemory> {
    for array in arrays {
        add_bounds(array.bounds.as_slice(), here, edges)?;
    }
    Ok(())
}

/// What a type needs: the constants in its bounds, and the type that its innermost array is of.
fn add_type(spec: &TypeSpec<u32>, here: &Here<'_>, edges: &mut Vec<Edge>) -> Result<(), NoMemory> {
    add_arrays(spec.arrays.as_slice(), here, edges)?;
    match &spec.element {
        SimpleSpec::Elementary(_, _) => {}
        SimpleSpec::Named(_, name) => add_type_name(name, here, edges)?,
        SimpleSpec::Reference(_, _, name) => add_type_name(name, here, edges)?,
    }
    Ok(())
}

fn add_item(item: &Item<u32>, here: &Here<'_>, edges: &mut Vec<Edge>) -> Result<(), NoMemory> {
    add_type(&item.kind, here, edges)?;
    match &item.initial {
        Some(Init::Value(e)) => add_expression(e, here, edges)?,
        _ => {}
    }
    Ok(())
}

fn add_entry(
    entry: &TypeDecl<u32>,
    here: &Here<'_>,
    edges: &mut Vec<Edge>,
) -> Result<(), NoMemory> {
    match &entry.body {
        TypeBody::Alias(spec) => add_type(spec, here, edges)?,
        TypeBody::Enumeration(_) => {}
        TypeBody::Structure(_) => {}
    }
    Ok(())
}

/// What the constants of an item need.
fn add_constants(
    known: &Known,
    place: usize,
    class: Option<usize>,
    name: &WrittenName<'_>,
    edges: &mut Vec<Edge>,
) -> Result<(), NoMemory> {
    let here = Here {
        known,
        place,
        class,
    };
    add_item(name.item, &here, edges)
}

/// What a group needs.
fn add_needed(
    known: &Known,
    place: usize,
    group: &Group<'_>,
    edges: &mut Vec<Edge>,
) -> Result<(), NoMemory> {
    match group {
        Group::Entry(_, _, entry) => {
            let here = Here {
                known,
                place,
                class: None,
            };
            add_entry(*entry, &here, edges)?;
        }
        Group::Interface(_, _, _) => {}
        Group::Class(_, _, _) => {}
        Group::Globals(_, name) => add_constants(known, place, None, name, edges)?,
        Group::Members(class, _, name) => {
            add_constants(known, place, Some(*class as usize), name, edges)?;
        }
    }
    Ok(())
}

/// An edge from each group to each that it needs.
fn edges_of(alloc: Global, groups: &[Group<'_>]) -> Result<Vec<Edge>, NoMemory> {
    let known = know(alloc, groups)?;
    let mut edges = Vec::new(alloc);
    for (place, group) in groups.iter().enumerate() {
        add_needed(&known, place, group, &mut edges)?;
    }
    Ok(edges)
}

/// The places of the groups, each behind those that it needs, but on cycles.
pub fn order_of_need(alloc: Global, groups: &[Group<'_>]) -> Result<Vec<usize>, NoMemory> {
    let edges = edges_of(alloc, groups)?;
    left_order(alloc, groups.len(), &edges)
}
