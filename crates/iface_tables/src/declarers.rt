//! The methods of interfaces by name.

ghost use Rattle.std.specs.Prelude.{◌≡◌, ℕ, List, [], ◌∷◌, ◌++◌, nat_eq, false, IfOk, OnOk, if◌then◌else◌};
ghost use Rattle.plc_text.specs.Words.{same};
ghost use Rattle.st_rules.specs.Interfaces.{interfaces_in, first_with};
ghost use Rattle.iface_tables.specs.Private.Declarers as declarers;

use class_tables::ClassTables;
use plc_text::{Items, NoMemory, Text, narrowed};
use st_rules::PrototypeId;
use std::alloc::Global;
use std::collections::HashMap;

/// The methods of each name, in the order of the text.
pub type Declarers = HashMap<Text, Items<PrototypeId>>;

/// Takes out the methods of a name.
fn taken(alloc: Global, table: &mut Declarers, name: &Text) -> Items<PrototypeId>
    ensures ids { result ≡ declarers.ids_in table.old name.now }
    ensures others { (q : List ℕ) → same name.now q ≡ false → declarers.ids_in table.new q ≡ declarers.ids_in table.old q }
{
    match table.remove(name) {
        Some(ids) => ids,
        None => Items::new(alloc),
    }
}

/// Adds a method behind those of its name.
fn note(alloc: Global, table: &mut Declarers, name: &Text, id: PrototypeId) -> Result<(), NoMemory>
    ensures { OnOk result ((q : List ℕ) → declarers.ids_in table.new q ≡ declarers.ids_in table.old q ++ (if same name.now q then id ∷ [] else [])) }
{
    let copy = Text::copy(alloc, name.as_str())?;
    let mut ids = taken(alloc, table, name);
    ids.push(id)?;
    table.insert(copy, ids)?;
    Ok(())
}

/// Adds the methods of an interface.
fn note_all(
    alloc: Global,
    table: &mut Declarers,
    interface: u32,
    names: &[Text],
) -> Result<(), NoMemory>
    ensures { OnOk result ((q : List ℕ) → declarers.ids_in table.new q ≡ declarers.ids_in table.old q ++ declarers.ids_of q interface names.now) }
{
    for method in 0..names.len() {
        let id = PrototypeId {
            interface,
            method: narrowed(method)?,
        };
        note(alloc, table, &names[method], id)?;
    }
    Ok(())
}

/// The methods of the interfaces, whose names are given.
pub fn declarers(alloc: Global, prototypes: &[Items<Text>]) -> Result<Declarers, NoMemory>
    ensures { IfOk result (λ table. (q : List ℕ) → declarers.ids_in table q ≡ declarers.ids_named prototypes.now q) }
{
    let mut table: Declarers = HashMap::new(alloc);
    for interface in 0..prototypes.len() {
        let number = narrowed(interface)?;
        note_all(alloc, &mut table, number, prototypes[interface].as_slice())?;
    }
    Ok(table)
}

fn methods_named<'a>(table: &'a Declarers, name: &Text) -> &'a [PrototypeId]
    ensures { result.now ≡ declarers.ids_in table.now name.now }
{
    match table.get(name) {
        Some(ids) => ids.as_slice(),
        None => &[],
    }
}

/// The first of the methods that the interface declares itself.
fn first_own(ids: &[PrototypeId], interface: u32) -> Option<PrototypeId>
    ensures { result ≡ declarers.first_of (λ j. nat_eq j interface) ids.now }
{
    for place in 0..ids.len() {
        let id = ids[place];
        if id.interface == interface {
            return Some(id);
        }
    }
    None
}

/// Whether an interface is that of one of the methods, or extends it.
fn has_one(classes: &ClassTables, ids: &[PrototypeId], interface: u32) -> bool
    ensures { result ≡ declarers.has_one (interfaces_in classes.now.decls) ids.now interface }
{
    ids.iter()
        .any(|id| classes.extends(interface, id.interface))
}

/// The first of the interfaces that has one of the methods.
fn first_with(classes: &ClassTables, ids: &[PrototypeId], interfaces: &[u32]) -> Option<u32>
    ensures { result ≡ first_with (declarers.has_one (interfaces_in classes.now.decls) ids.now) interfaces.now }
{
    for place in 0..interfaces.len() {
        let interface = interfaces[place];
        if has_one(classes, ids, interface) {
            return Some(interface);
        }
    }
    None
}

/// The method that a name means in an interface: its own, or else what the name means in the first interface behind EXTENDS that has
/// one. This goes upward, past at most as many interfaces as there are, and asks of those behind EXTENDS of each whether they extend one
/// that declares the name.
#[tactic(auto, using(crate::proofs::DeclarerLaws::within_next))]
pub fn method_named(
    classes: &ClassTables,
    table: &Declarers,
    interface: u32,
    name: &Text,
) -> Option<PrototypeId>
    ensures { result ≡ declarers.method_named classes.now table.now interface name.now }
{
    let ids = methods_named(table, name);
    let mut here = interface;
    let mut left = classes.interface_count();
    'upward: while left > 0 {
        left -= 1;
        if let Some(id) = first_own(ids, here) {
            return Some(id);
        }
        match first_with(classes, ids, classes.extended(here)) {
            Some(next) => here = next,
            None => return None,
        }
    }
    None
}
