//! What code is made by, as text. A line adds to a table: `locals OFFSET ..` says where the locals lie, with `*` behind the offset of an
//! in-out, `own CLASS` which class the text is of, `structure SIZE OFFSET ..`, `class SIZE OFFSET ..` and `interface` tell of the next
//! one, with `/` and its kind behind the offset of a number, `classes NUMBER` and `bodies NUMBER` of so many of which nothing is said.
//! `calls function ROUTINE PARAMETER ..` tells of the next function, `calls body ROUTINE PARAMETER ..` of the body of the next class,
//! `calls method NAME ROUTINE SLOT PARAMETER ..` of a method of the last class, and `calls signature NAME NUMBER PARAMETER ..` of one of
//! the last interface. A parameter is a letter for its sort, `i`, `o` or `b` for both, and the number of its local, or `v` and that of
//! its variable.

use code_rules::LocalPlace;
use codegen_tables::{CallEntry, CallTables, Laid, Sizes};
use machine_tests::{elem, small};
use plc_text::{Items, NoMemory, Text, narrowed, split_field};
use routine_tables::{Parameter, Recipient};
use st_names::Names;
use st_tree::SectionSort;
use std::alloc::Global;

/// What code is made by.
#[derive(Drop)]
pub struct CodeTables {
    pub sizes: Sizes,
    pub calls: CallTables,
    pub class: Option<u32>,
    pub locals: Items<LocalPlace>,
}

fn no_tables(alloc: Global) -> CodeTables {
    CodeTables {
        sizes: Sizes {
            structures: Items::new(alloc),
            classes: Items::new(alloc),
        },
        calls: CallTables {
            functions: Items::new(alloc),
            methods: Items::new(alloc),
            bodies: Items::new(alloc),
            signatures: Items::new(alloc),
            parameters: Items::new(alloc),
        },
        class: None,
        locals: Items::new(alloc),
    }
}

fn laid(alloc: Global, words: &str) -> Result<Laid, NoMemory> {
    let (size, offsets) = split_field(words);
    let mut fields = Items::new(alloc);
    let mut kinds = Items::new(alloc);
    for word in offsets.split(' ') {
        if !word.is_empty() {
            let (offset, kind) = match word.split_once('/') {
                Some(parts) => parts,
                None => (word, ""),
            };
            fields.push(small(offset))?;
            kinds.push(elem(kind))?;
        }
    }
    Ok(Laid {
        size: small(size),
        fields,
        kinds,
    })
}

/// Adds classes of which nothing is said.
fn add_classes(alloc: Global, made: &mut CodeTables, number: u32) -> Result<(), NoMemory> {
    for _ in 0..number {
        made.sizes.classes.push(laid(alloc, "")?)?;
        made.calls.methods.push(Names::new(alloc))?;
    }
    Ok(())
}

/// Adds bodies of which nothing is said.
fn add_bodies(alloc: Global, calls: &mut CallTables, number: u32) -> Result<(), NoMemory> {
    for _ in 0..number {
        let made = entry(alloc, calls, 0, 0, "")?;
        calls.bodies.push(made)?;
    }
    Ok(())
}

fn local(word: &str) -> LocalPlace {
    match word.strip_suffix('*') {
        Some(offset) => LocalPlace {
            offset: small(offset),
            in_out: true,
        },
        None => LocalPlace {
            offset: small(word),
            in_out: false,
        },
    }
}

fn add_locals(locals: &mut Items<LocalPlace>, words: &str) -> Result<(), NoMemory> {
    for word in words.split(' ') {
        locals.push(local(word))?;
    }
    Ok(())
}

fn recipient(word: &str) -> Recipient {
    match word.strip_prefix('v') {
        Some(variable) => Recipient::Variable(small(variable)),
        None => Recipient::Local(small(word)),
    }
}

fn parameter(word: &str) -> Parameter {
    if let Some(to) = word.strip_prefix('o') {
        return Parameter {
            sort: SectionSort::Output,
            to: recipient(to),
        };
    }
    if let Some(to) = word.strip_prefix('b') {
        return Parameter {
            sort: SectionSort::InOut,
            to: recipient(to),
        };
    }
    Parameter {
        sort: SectionSort::Input,
        to: recipient(word.strip_prefix('i').unwrap_or(word)),
    }
}

fn parameters(alloc: Global, words: &str) -> Result<Items<Parameter>, NoMemory> {
    let mut all = Items::new(alloc);
    for word in words.split(' ') {
        if !word.is_empty() {
            all.push(parameter(word))?;
        }
    }
    Ok(all)
}

/// Something that is entered, with the parameters that the words tell of.
fn entry(
    alloc: Global,
    calls: &mut CallTables,
    routine: u32,
    slot: u32,
    words: &str,
) -> Result<CallEntry, NoMemory> {
    let number = narrowed(calls.parameters.len())?;
    let list = parameters(alloc, words)?;
    calls.parameters.push(list)?;
    Ok(CallEntry {
        routine,
        slot,
        parameters: number,
    })
}

/// Adds what a name means in the last list.
fn add_named(
    lists: &mut Items<Names<CallEntry>>,
    name: Text,
    entry: CallEntry,
) -> Result<(), NoMemory> {
    if let Some(mut names) = lists.pop() {
        match names.add(name, entry) {
            Ok(_) => {}
            Err(_) => return Err(NoMemory),
        }
        lists.push(names)?;
    }
    Ok(())
}

fn add_method(alloc: Global, calls: &mut CallTables, words: &str) -> Result<(), NoMemory> {
    let (name, words) = split_field(words);
    let (routine, words) = split_field(words);
    let (slot, words) = split_field(words);
    let name = Text::copy(alloc, name)?;
    let made = entry(alloc, calls, small(routine), small(slot), words)?;
    add_named(&mut calls.methods, name, made)
}

fn add_signature(alloc: Global, calls: &mut CallTables, words: &str) -> Result<(), NoMemory> {
    let (name, words) = split_field(words);
    let (number, words) = split_field(words);
    let name = Text::copy(alloc, name)?;
    let made = entry(alloc, calls, 0, small(number), words)?;
    add_named(&mut calls.signatures, name, made)
}

/// Adds something that calls name.
fn add_call(alloc: Global, calls: &mut CallTables, words: &str) -> Result<(), NoMemory> {
    let (sort, words) = split_field(words);
    let (routine, behind) = split_field(words);
    match sort {
        "method" => add_method(alloc, calls, words),
        "signature" => add_signature(alloc, calls, words),
        "body" => {
            let made = entry(alloc, calls, small(routine), 0, behind)?;
            calls.bodies.push(made)?;
            Ok(())
        }
        _ => {
            let made = entry(alloc, calls, small(routine), 0, behind)?;
            calls.functions.push(made)?;
            Ok(())
        }
    }
}

/// Adds what a line says.
fn add(alloc: Global, made: &mut CodeTables, line: &str) -> Result<(), NoMemory> {
    let (table, words) = split_field(line);
    match table {
        "locals" => add_locals(&mut made.locals, words)?,
        "own" => made.class = Some(small(words)),
        "structure" => made.sizes.structures.push(laid(alloc, words)?)?,
        "class" => {
            made.sizes.classes.push(laid(alloc, words)?)?;
            made.calls.methods.push(Names::new(alloc))?;
        }
        "classes" => add_classes(alloc, made, small(words))?,
        "bodies" => add_bodies(alloc, &mut made.calls, small(words))?,
        "interface" => made.calls.signatures.push(Names::new(alloc))?,
        "calls" => add_call(alloc, &mut made.calls, words)?,
        _ => {}
    }
    Ok(())
}

/// The tables of a text.
pub fn tables_of(alloc: Global, text: &str) -> Result<CodeTables, NoMemory> {
    let mut made = no_tables(alloc);
    for line in text.split('\n') {
        add(alloc, &mut made, line)?;
    }
    Ok(made)
}
