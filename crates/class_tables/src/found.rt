//! What is found in the parts of tables.

ghost use Rattle.std.specs.Prelude.{◌≡◌, length};
ghost use Rattle.std.specs.List.{list_any};
ghost use Rattle.graph_reach.specs.Reach.{reaches};
ghost use Rattle.class_tables.specs.Private.Found as found;

use crate::broken::method_at;
use crate::settle::Settled;
use class_rows::{UnitNames, UnitRows, number_of};
use graph_reach::Row;
use plc_text::Text;
use st_rules::{Access, MethodId};

/// The method that a name means in a class.
pub fn method(names: &UnitNames, settled: &Settled, class: u32, name: &Text) -> Option<MethodId>
    ensures { result ≡ found.method names.now settled.now class name.now }
{
    let number = number_of(&names.methods, name)?;
    let state = settled.states.get(class as usize)?;
    let entry = settled.store.entry(state.methods, number)?;
    Some(entry.id)
}

/// The slot of that method.
pub fn slot(names: &UnitNames, settled: &Settled, class: u32, name: &Text) -> Option<u32>
    ensures { result ≡ found.slot names.now settled.now class name.now }
{
    let number = number_of(&names.methods, name)?;
    let state = settled.states.get(class as usize)?;
    let entry = settled.store.entry(state.methods, number)?;
    Some(if state.ends { entry.slot } else { number })
}

/// Whether a name means an abstract method in a class.
pub fn has_abstract(settled: &Settled, class: u32) -> bool
    ensures { result ≡ found.has_abstract settled.now class }
{
    match settled.states.get(class as usize) {
        Some(state) => state.abstracts != 0,
        None => false,
    }
}

/// Whether a class is another one or is derived from it.
pub fn has_above(settled: &Settled, class: u32, other: u32) -> bool
    ensures { result ≡ found.has_above settled.now class other }
{
    if other as usize >= settled.states.len() {
        return class == other;
    }
    match settled.states.get(class as usize) {
        Some(state) => settled.store.has(state.above, other),
        None => class == other,
    }
}

fn leads(reach: &[Row], node: usize, other: usize) -> bool
    ensures { result ≡ reaches reach.now node other }
{
    match reach.get(node) {
        Some(row) => row.has(other),
        None => false,
    }
}

/// Whether a class conforms to an interface.
pub fn conforms_to(rows: &UnitRows, count: u32, reach: &[Row], class: u32, interface: u32) -> bool
    requires { count ≡ length rows.now.interfaces }
    ensures { result ≡ found.conforms_to rows.now reach.now class interface }
{
    if class as usize >= rows.classes.len() || interface >= count {
        return false;
    }
    leads(reach, count as usize + class as usize, interface as usize)
}

/// Whether an interface is another one or extends it.
pub fn extends(rows: &UnitRows, reach: &[Row], interface: u32, other: u32) -> bool
    ensures { result ≡ found.extends rows.now reach.now interface other }
{
    let count = rows.interfaces.len();
    if interface as usize >= count || other as usize >= count {
        return interface == other;
    }
    leads(reach, interface as usize, other as usize)
}

/// The interfaces behind EXTENDS of an interface.
pub fn extended(rows: &UnitRows, interface: u32) -> &[u32]
    ensures { result.now ≡ found.extended rows.now interface }
{
    match rows.interfaces.get(interface as usize) {
        Some(row) => row.extended.as_slice(),
        None => &[],
    }
}

/// Whether an interface extends another one that extends it.
pub fn lies_on_cycle(rows: &UnitRows, reach: &[Row], interface: u32) -> bool
    ensures { result ≡ found.lies_on_cycle rows.now reach.now interface }
{
    match rows.interfaces.get(interface as usize) {
        Some(row) => leads_back(rows, reach, row.extended.as_slice(), interface),
        None => false,
    }
}

fn leads_back(rows: &UnitRows, reach: &[Row], others: &[u32], interface: u32) -> bool
    ensures { result ≡ list_any (λ other. found.extends rows.now reach.now other interface) others.now }
{
    others
        .iter()
        .any(|other| extends(rows, reach, *other, interface))
}

/// Whether a method is PUBLIC.
pub fn is_public(rows: &UnitRows, id: MethodId) -> bool
    ensures { result ≡ found.is_public rows.now id }
{
    match method_at(rows.classes.as_slice(), id) {
        Some(method) => matches!(method.access, Access::Public),
        None => false,
    }
}

/// Whether a class has EXTENDS.
pub fn has_extends(rows: &UnitRows, class: u32) -> bool
    ensures { result ≡ found.has_extends rows.now class }
{
    match rows.classes.get(class as usize) {
        Some(row) => row.has_extends,
        None => false,
    }
}

/// The line of a class that is not abstract.
pub fn concrete_line(rows: &UnitRows, class: u32) -> Option<u32>
    ensures { result ≡ found.concrete_line rows.now class }
{
    match rows.classes.get(class as usize) {
        Some(row) => {
            if row.is_abstract {
                None
            } else {
                Some(row.line)
            }
        }
        None => None,
    }
}

/// The line of an interface.
pub fn interface_line(rows: &UnitRows, interface: u32) -> Option<u32>
    ensures { result ≡ found.interface_line rows.now interface }
{
    match rows.interfaces.get(interface as usize) {
        Some(row) => Some(row.line),
        None => None,
    }
}
