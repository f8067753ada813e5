//! The bases of classes, and what declarations implement and extend, by number.

ghost use Rattle.std.specs.Prelude.{◌≡◌, option_and_then, map, IfOk};
ghost use Rattle.program_tables.specs.Private.Places.{found_in};
ghost use Rattle.program_tables.specs.Private.Bases as bases;

use crate::places::{Places, place_of};
use plc_text::{Items, NoMemory};
use st_tree::{ClassDecl, InterfaceDecl, Note, Used};
use std::alloc::Global;

fn base_number(places: &Places, base: &Option<Used<Note>>) -> Option<u32>
    ensures { result ≡ option_and_then (λ b. found_in places.now b.text) base.now }
{
    match base {
        Some(base) => place_of(places, &base.text),
        None => None,
    }
}

/// The number of the base of each class, where it has one that is found.
pub fn bases_of(
    alloc: Global,
    places: &Places,
    classes: &[ClassDecl<Note>],
) -> Result<Vec<Option<u32>>, NoMemory>
    ensures { IfOk result (λ all. all.items ≡ map (bases.base_by places.now) classes.now) }
{
    let mut all = Vec::new(alloc);
    for class in classes {
        all.push(base_number(places, &class.base))?;
    }
    Ok(all)
}

/// The numbers that names mean, where they are found.
fn numbers(alloc: Global, places: &Places, names: &[Used<Note>]) -> Result<Items<u32>, NoMemory>
    ensures { IfOk result (λ made. made ≡ bases.named_by places.now names.now) }
{
    let mut made = Items::new(alloc);
    for name in names {
        if let Some(place) = place_of(places, &name.text) {
            made.push(place)?;
        }
    }
    Ok(made)
}

/// The interfaces that each class implements itself.
pub fn implemented(
    alloc: Global,
    places: &Places,
    classes: &[ClassDecl<Note>],
) -> Result<Vec<Items<u32>>, NoMemory>
    ensures { IfOk result (λ all. all.items ≡ map (bases.implemented_by places.now) classes.now) }
{
    let mut all = Vec::new(alloc);
    for class in classes {
        all.push(numbers(alloc, places, class.interfaces.as_slice())?)?;
    }
    Ok(all)
}

/// The interfaces behind EXTENDS of each interface.
pub fn extended(
    alloc: Global,
    places: &Places,
    interfaces: &[InterfaceDecl<Note>],
) -> Result<Vec<Items<u32>>, NoMemory>
    ensures { IfOk result (λ all. all.items ≡ map (bases.extended_by places.now) interfaces.now) }
{
    let mut all = Vec::new(alloc);
    for interface in interfaces {
        all.push(numbers(alloc, places, interface.bases.as_slice())?)?;
    }
    Ok(all)
}
