//! The methods of interfaces by name.

ghost use Rattle.std.specs.Prelude.{◌≡◌, ℕ, List, [], ◌∷◌, ◌++◌, nat_eq, true, false, Some, None, MatchOption, IfOk, OnOk, if◌then◌else◌};
ghost use Rattle.plc_text.specs.Words.{same};
ghost use Rattle.st_rules.specs.Interfaces.{first_with};
ghost use Rattle.st_values.specs.View.{signature_of};
ghost use Rattle.routine_tables.specs.Parameters.{parameters_of};
ghost use Rattle.routine_tables.specs.signature_tables.Private.Declarers as declarers;

use crate::{Parameter, local_parameters, push_sections};
use plc_text::{Items, NoMemory, Text, narrowed};
use program_tables::ProgramTables;
use st_tree::{InterfaceDecl, Note, Prototype};
use std::alloc::Global;
use std::collections::HashMap;

/// A method of an interface, with what it may be given.
#[derive(Drop)]
pub struct Declared {
    pub interface: u32,
    pub parameters: Items<Parameter>,
}

/// The methods of each name, in the order of the text.
pub type Declarers = HashMap<Text, Items<Declared>>;

/// The inputs, outputs and in-outs of a method: locals behind its result.
fn parameters_in(alloc: Global, method: &Prototype<Note>) -> Result<Items<Parameter>, NoMemory>
    ensures { IfOk result (λ made. parameters_of made ≡ (signature_of method.now).parameters) }
{
    let mut variables = Vec::new(alloc);
    push_sections(&mut variables, method.sections.as_slice())?;
    let first = match method.result {
        Some(_) => 1,
        None => 0,
    };
    let made = local_parameters(alloc, first, &variables)?;
    Ok(made)
}

/// Takes out the methods of a name.
fn taken(alloc: Global, table: &mut Declarers, name: &Text) -> Items<Declared>
    ensures methods { result ≡ declarers.declared_in table.old name.now }
    ensures others { (q : List ℕ) → same name.now q ≡ false → declarers.declared_in table.new q ≡ declarers.declared_in table.old q }
{
    match table.remove(name) {
        Some(methods) => methods,
        None => Items::new(alloc),
    }
}

/// Adds a method behind those of its name.
fn note(
    alloc: Global,
    table: &mut Declarers,
    name: &Text,
    declared: Declared,
) -> Result<(), NoMemory>
    ensures { OnOk result ((q : List ℕ) → declarers.declared_in table.new q ≡ declarers.declared_in table.old q ++ (if same name.now q then declared ∷ [] else [])) }
{
    let copy = Text::copy(alloc, name.as_str())?;
    let mut methods = taken(alloc, table, name);
    methods.push(declared)?;
    table.insert(copy, methods)?;
    Ok(())
}

/// Adds a method of an interface.
fn note_method(
    alloc: Global,
    table: &mut Declarers,
    interface: u32,
    method: &Prototype<Note>,
) -> Result<(), NoMemory>
    ensures { OnOk result ((q : List ℕ) → declarers.signed_in table.new q ≡ declarers.signed_in table.old q ++ declarers.one_named q interface method.now) }
{
    let parameters = parameters_in(alloc, method)?;
    let declared = Declared {
        interface,
        parameters,
    };
    note(alloc, table, &method.name.text, declared)?;
    Ok(())
}

/// Adds the methods of an interface.
fn note_all(
    alloc: Global,
    table: &mut Declarers,
    interface: u32,
    methods: &[Prototype<Note>],
) -> Result<(), NoMemory>
    ensures { OnOk result ((q : List ℕ) → declarers.signed_in table.new q ≡ declarers.signed_in table.old q ++ declarers.all_named q interface methods.now) }
{
    for method in methods {
        note_method(alloc, table, interface, method)?;
    }
    Ok(())
}

/// The methods of interfaces.
pub fn declarers(alloc: Global, interfaces: &[InterfaceDecl<Note>]) -> Result<Declarers, NoMemory>
    ensures { IfOk result (λ table. (q : List ℕ) → declarers.signed_in table q ≡ declarers.named_from q 0 interfaces.now) }
{
    let mut table: Declarers = HashMap::new(alloc);
    for interface in 0..interfaces.len() {
        let number = narrowed(interface)?;
        note_all(
            alloc,
            &mut table,
            number,
            interfaces[interface].methods.as_slice(),
        )?;
    }
    Ok(table)
}

/// The methods of a name.
pub fn methods_named<'a>(table: &'a Declarers, name: &Text) -> &'a [Declared]
    ensures { result.now ≡ declarers.declared_in table.now name.now }
{
    match table.get(name) {
        Some(methods) => methods.as_slice(),
        None => &[],
    }
}

/// What the first of the methods that an interface declares itself may be given.
fn first_own(methods: &[Declared], interface: u32) -> Option<&[Parameter]>
    ensures { MatchOption result (declarers.first_of (λ j. nat_eq j interface) (declarers.signed methods.now) ≡ None) (λ found. declarers.first_of (λ j. nat_eq j interface) (declarers.signed methods.now) ≡ Some (parameters_of found.now)) }
{
    for place in 0..methods.len() {
        let method = &methods[place];
        if method.interface == interface {
            return Some(method.parameters.as_slice());
        }
    }
    None
}

/// Whether an interface is that of one of the methods, or extends it.
fn has_one(tables: &ProgramTables, methods: &[Declared], interface: u32) -> bool
    ensures { result ≡ declarers.has_one tables.now.interfaces (declarers.signed methods.now) interface }
{
    for place in 0..methods.len() {
        let method = &methods[place];
        if tables.extends(interface, method.interface) {
            return true;
        }
    }
    false
}

/// The first of the interfaces that has one of the methods.
fn first_with(tables: &ProgramTables, methods: &[Declared], interfaces: &[u32]) -> Option<u32>
    ensures { result ≡ first_with (declarers.has_one tables.now.interfaces (declarers.signed methods.now)) interfaces.now }
{
    for place in 0..interfaces.len() {
        let interface = interfaces[place];
        if has_one(tables, methods, interface) {
            return Some(interface);
        }
    }
    None
}

/// What the method may be given that is meant in an interface, past at most so many.
#[tactic(auto, using(crate::proofs::signature_tables::DeclarerLaws::within_next))]
pub fn given<'a>(
    tables: &ProgramTables,
    methods: &'a [Declared],
    count: usize,
    interface: u32,
) -> Option<&'a [Parameter]>
    ensures { MatchOption result (declarers.given_within tables.now.interfaces (declarers.signed methods.now) count interface ≡ None) (λ found. declarers.given_within tables.now.interfaces (declarers.signed methods.now) count interface ≡ Some (parameters_of found.now)) }
{
    let mut here = interface;
    let mut left = count;
    'upward: while left > 0 {
        left -= 1;
        if let Some(parameters) = first_own(methods, here) {
            return Some(parameters);
        }
        match first_with(tables, methods, tables.extended(here)) {
            Some(next) => here = next,
            None => return None,
        }
    }
    None
}
