//! Tables of names: where the first of each name stands.

ghost use Rattle.std.specs.Prelude.{◌≡◌, ◌+◌, true, IfOk};
ghost use Rattle.program_tables.specs.Private.Places as places;
ghost use Rattle.program_tables.specs.Private.Places.{IsTableOf, AreMemberTables};

use plc_text::{NoMemory, Text, narrowed};
use st_tree::{ClassDecl, InterfaceDecl, Member, Note, ProgramDecl};
use std::alloc::Global;
use std::collections::HashMap;

/// Where the first of each name stands.
pub type Places = HashMap<Text, u32>;

/// The place of the first of the name.
pub fn place_of(table: &Places, name: &Text) -> Option<u32>
    ensures { result ≡ places.found_in table.now name.now }
{
    table.get(name).copied()
}

pub fn class_places(alloc: Global, all: &[ClassDecl<Note>]) -> Result<Places, NoMemory>
    ensures { IfOk result (λ table. IsTableOf places.class_name (λ d. true) 0 table all.now) }
{
    let mut table: Places = HashMap::new(alloc);
    let mut i = all.len();
    'places: while i > 0 {
        i -= 1;
        let name = Text::copy(alloc, all[i].name.text.as_str())?;
        table.insert(name, narrowed(i)?)?;
    }
    Ok(table)
}

/// A place behind so many.
fn behind(first: usize, place: usize) -> Result<u32, NoMemory>
    ensures { IfOk result (λ n. n ≡ first + place) }
{
    match first.checked_add(place) {
        Some(sum) => narrowed(sum),
        None => Err(NoMemory),
    }
}

/// Of programs, which are numbered from the first number on.
pub fn program_places(
    alloc: Global,
    all: &[ProgramDecl<Note>],
    first: usize,
) -> Result<Places, NoMemory>
    ensures { IfOk result (λ table. IsTableOf places.program_name (λ d. true) first table all.now) }
{
    let mut table: Places = HashMap::new(alloc);
    let mut i = all.len();
    'places: while i > 0 {
        i -= 1;
        let name = Text::copy(alloc, all[i].name.text.as_str())?;
        table.insert(name, behind(first, i)?)?;
    }
    Ok(table)
}

pub fn interface_places(alloc: Global, all: &[InterfaceDecl<Note>]) -> Result<Places, NoMemory>
    ensures { IfOk result (λ table. IsTableOf places.interface_name (λ d. true) 0 table all.now) }
{
    let mut table: Places = HashMap::new(alloc);
    let mut i = all.len();
    'places: while i > 0 {
        i -= 1;
        let name = Text::copy(alloc, all[i].name.text.as_str())?;
        table.insert(name, narrowed(i)?)?;
    }
    Ok(table)
}

/// Where the first method of each name stands among the members of a class.
fn member_places(alloc: Global, all: &[Member<Note>]) -> Result<Places, NoMemory>
    ensures { IfOk result (λ table. IsTableOf places.method_name places.is_method 0 table all.now) }
{
    let mut table: Places = HashMap::new(alloc);
    let mut i = all.len();
    'places: while i > 0 {
        i -= 1;
        if let Member::Method(method) = &all[i] {
            let name = Text::copy(alloc, method.name.text.as_str())?;
            table.insert(name, narrowed(i)?)?;
        }
    }
    Ok(table)
}

/// The same for each class.
pub fn method_places(alloc: Global, classes: &[ClassDecl<Note>]) -> Result<Vec<Places>, NoMemory>
    ensures { IfOk result (λ tables. AreMemberTables tables.items classes.now) }
{
    let mut tables = Vec::new(alloc);
    for class in classes {
        let table = member_places(alloc, class.members.as_slice())?;
        tables.push(table)?;
    }
    Ok(tables)
}
