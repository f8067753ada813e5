//! The parts of the tables, and what is found in them.

ghost use Rattle.std.specs.Prelude.{◌≡◌, IfOk};
ghost use Rattle.program_tables.specs.Private.Tables.{AreTables};
ghost use Rattle.program_tables.specs.Private.Found as found;

use crate::bases::{self, bases_of, implemented};
use crate::chain::chain_of;
use crate::climb::{implements, is_derived, leads, nearest_method};
use crate::graph::reach;
use crate::places::{
    Places, class_places, interface_places, method_places, place_of, program_places,
};
use crate::routine::RoutineId;
use graph_reach::Row;
use plc_text::{Items, NoMemory, Text};
use st_tree::Program;
use st_types::StType;
use std::alloc::Global;

/// The tables of a program.
pub struct Tables {
    pub functions: usize,
    /// How many classes and programs there are.
    pub classes: usize,
    pub interfaces: usize,
    /// The first class of each name.
    pub class_places: Places,
    /// The first program of each name, numbered behind all classes.
    pub program_places: Places,
    /// Of each class.
    pub bases: Vec<Option<u32>>,
    pub methods: Vec<Places>,
    pub implemented: Vec<Items<u32>>,
    /// Behind EXTENDS of each interface.
    pub extended: Vec<Items<u32>>,
    /// To which interfaces each interface leads.
    pub reach: Vec<Row>,
}

// By hand, so that a drop is one call: a derived one is written out wherever a `?` may need it, and a proof goes over each part.
impl Drop for Tables {
    fn drop(self) {
        let Tables {
            functions: _,
            classes: _,
            interfaces: _,
            class_places,
            program_places,
            bases,
            methods,
            implemented,
            extended,
            reach,
        } = self;
        drop(class_places);
        drop(program_places);
        drop(bases);
        drop(methods);
        drop(implemented);
        drop(extended);
        drop(reach);
    }
}

/// How many classes and programs there are.
fn count(program: &Program) -> Result<usize, NoMemory>
    ensures { IfOk result (λ n. n ≡ found.count program.now) }
{
    match program.classes.len().checked_add(program.programs.len()) {
        Some(sum) => Ok(sum),
        None => Err(NoMemory),
    }
}

/// The tables of a program.
pub fn tables_of(alloc: Global, program: &Program) -> Result<Tables, NoMemory>
    ensures { IfOk result (λ tables. AreTables program.now tables) }
{
    let classes = program.classes.as_slice();
    let interfaces = program.interfaces.as_slice();
    let count = count(program)?;
    let class_places = class_places(alloc, classes)?;
    let program_places = program_places(alloc, program.programs.as_slice(), classes.len())?;
    let interface_places = interface_places(alloc, interfaces)?;
    let bases = bases_of(alloc, &class_places, classes)?;
    let methods = method_places(alloc, classes)?;
    let implemented = implemented(alloc, &interface_places, classes)?;
    let extended = bases::extended(alloc, &interface_places, interfaces)?;
    let reach = reach(alloc, &interface_places, interfaces, &extended)?;
    Ok(Tables {
        functions: program.functions.len(),
        classes: count,
        interfaces: interfaces.len(),
        class_places,
        program_places,
        bases,
        methods,
        implemented,
        extended,
        reach,
    })
}

pub fn class_number(tables: &Tables, name: &Text) -> Option<u32>
    ensures { result ≡ found.class_number tables.now name.now }
{
    match place_of(&tables.class_places, name) {
        Some(class) => Some(class),
        None => place_of(&tables.program_places, name),
    }
}

pub fn function(tables: &Tables, number: u32) -> Option<RoutineId>
    ensures { result ≡ found.function tables.now number }
{
    if (number as usize) < tables.functions {
        Some(RoutineId::Function(number))
    } else {
        None
    }
}

pub fn body_of(tables: &Tables, class: u32) -> Option<RoutineId>
    ensures { result ≡ found.body_of tables.now class }
{
    if (class as usize) < tables.classes {
        Some(RoutineId::Body(class))
    } else {
        None
    }
}

pub fn method(tables: &Tables, class: u32, name: &Text) -> Option<RoutineId>
    ensures { result ≡ found.method tables.now class name.now }
{
    nearest_method(&tables.bases, &tables.methods, class, name)
}

/// The classes upward from a class or a program.
pub fn chain(alloc: Global, tables: &Tables, class: u32) -> Result<Vec<u32>, NoMemory>
    ensures { IfOk result (λ chain. chain.items ≡ found.chain tables.now class) }
{
    if class as usize >= tables.classes {
        return Ok(Vec::new(alloc));
    }
    chain_of(alloc, &tables.bases, class)
}

fn is_class_or_derived(tables: &Tables, class: u32, other: u32) -> bool
    ensures { result ≡ found.is_derived tables.now class other }
{
    if class as usize >= tables.classes {
        return false;
    }
    is_derived(&tables.bases, class, other)
}

fn conforms_to(tables: &Tables, class: u32, interface: u32) -> bool
    ensures { result ≡ found.conforms_to tables.now class interface }
{
    if interface as usize >= tables.interfaces {
        return false;
    }
    implements(
        &tables.bases,
        &tables.implemented,
        &tables.reach,
        class,
        interface,
    )
}

/// The interfaces behind EXTENDS of an interface.
pub fn extended(tables: &Tables, interface: u32) -> &[u32]
    ensures { result.now ≡ found.extended tables.now interface }
{
    match tables.extended.get(interface as usize) {
        Some(ahead) => ahead.as_slice(),
        None => &[],
    }
}

pub fn extends(tables: &Tables, interface: u32, other: u32) -> bool
    ensures { result ≡ found.extends tables.now interface other }
{
    if interface as usize >= tables.interfaces {
        return false;
    }
    if other as usize >= tables.interfaces {
        return false;
    }
    leads(&tables.reach, interface, other)
}

pub fn conforms(tables: &Tables, class: u32, kind: &StType) -> bool
    ensures { result ≡ found.conforms tables.now class kind.now }
{
    match kind {
        StType::Instance(other) => is_class_or_derived(tables, class, *other),
        StType::Reference(other) => is_class_or_derived(tables, class, *other),
        StType::Interface(interface) => conforms_to(tables, class, *interface),
        StType::Elementary(_) => false,
        StType::Enumeration(_) => false,
        StType::Structure(_) => false,
        StType::Array(_, _, _) => false,
    }
}
