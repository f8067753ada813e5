//! What is told together.

ghost use Rattle.std.specs.Prelude.{◌≡◌, ◌∷◌, [], ◌++◌, map, IfOk, OnOk};
ghost use Rattle.st_unit_rules.specs.declared_names.Variables.{sections_in};
ghost use Rattle.st_unit_rules.specs.declaration_list.Listed.{declared_as};
ghost use Rattle.st_unit_rules.specs.declaration_list.Written.{global_of, names_in_sections};
ghost use Rattle.resolution_order.specs.telling_list.Jobs as jobs;
ghost use Rattle.resolution_order.specs.telling_groups.Groups.{group_of, globals_of, members_of, one_class};
ghost use Rattle.resolution_order.specs.telling_groups.Private.Listed as listed;

use plc_text::{NoMemory, one_more};
use st_tree::{ClassDecl, Decl, InterfaceDecl, TypeDecl};
use st_unit_rules::declaration_list::{Declared, WrittenName, list_declarations, written_members};
use std::alloc::Global;

/// What is told together: a type, or the constants that one item declares.
#[derive(Clone, Copy)]
pub enum Group<'a> {
    /// An entry of TYPE, with its number among types and its number among entries.
    Entry(u32, u32, &'a TypeDecl<u32>),
    /// An interface, with its number among types and its number among interfaces.
    Interface(u32, u32, &'a InterfaceDecl<u32>),
    /// A class, with its number among types and its number among classes.
    Class(u32, u32, &'a ClassDecl<u32>),
    /// Constants, with the number of the first among globals and functions, and its name.
    Globals(u32, WrittenName<'a>),
    /// Constants, with the number of their class, that of the first among what the class declares, and its name.
    Members(u32, u32, WrittenName<'a>),
}

/// The numbers that come next.
#[derive(Clone, Copy)]
struct Next {
    types: u32,
    entries: u32,
    interfaces: u32,
    classes: u32,
    globals: u32,
}

/// Adds one group.
fn add<'a>(list: &mut Vec<Group<'a>>, one: Group<'a>) -> Result<(), NoMemory>
    ensures { OnOk result (map group_of list.new.items ≡ map group_of list.old.items ++ (group_of one.entry ∷ [])) }
{
    list.push(one)?;
    Ok(())
}

/// Adds the constants of an item of a class, where this is the first name of one.
fn add_member<'a>(
    list: &mut Vec<Group<'a>>,
    class: u32,
    index: u32,
    name: &WrittenName<'a>,
) -> Result<(), NoMemory>
    ensures { OnOk result (map group_of list.new.items ≡ map group_of list.old.items ++ listed.group_at (members_of class) index (global_of name.now)) }
{
    if name.first && name.is_constant() {
        add(list, Group::Members(class, index, *name))?;
    }
    Ok(())
}

/// Adds the constants of a class.
fn add_members<'a>(
    list: &mut Vec<Group<'a>>,
    class: u32,
    names: &[WrittenName<'a>],
) -> Result<(), NoMemory>
    ensures { OnOk result (map group_of list.new.items ≡ map group_of list.old.items ++ listed.groups_named (members_of class) 0 (map global_of names.now)) }
{
    let mut index: u32 = 0;
    for name in names {
        add_member(list, class, index, name)?;
        index = one_more(index)?;
    }
    Ok(())
}

/// Adds a class and its constants.
fn add_class<'a>(
    alloc: Global,
    list: &mut Vec<Group<'a>>,
    types: u32,
    class: u32,
    decl: &'a ClassDecl<u32>,
) -> Result<(), NoMemory>
    ensures { OnOk result (map group_of list.new.items ≡ map group_of list.old.items ++ (one_class types class ∷ listed.groups_named (members_of class) 0 (names_in_sections (sections_in decl.now.members)))) }
{
    let names = written_members(alloc, decl.members.as_slice())?;
    add(list, Group::Class(types, class, decl))?;
    add_members(list, class, &names)
}

/// Adds the constants of an item, where this is the first name of one.
fn add_global<'a>(
    list: &mut Vec<Group<'a>>,
    number: u32,
    name: &WrittenName<'a>,
) -> Result<(), NoMemory>
    ensures { OnOk result (map group_of list.new.items ≡ map group_of list.old.items ++ listed.group_at globals_of number (global_of name.now)) }
{
    if name.first && name.is_constant() {
        add(list, Group::Globals(number, *name))?;
    }
    Ok(())
}

/// Adds what can be told of a declaration.
fn add_groups<'a>(
    alloc: Global,
    list: &mut Vec<Group<'a>>,
    next: Next,
    declared: &Declared<'a>,
) -> Result<(), NoMemory>
    ensures { OnOk result (map group_of list.new.items ≡ map group_of list.old.items ++ listed.groups_of (listed.numbers_of next) (declared_as declared.now)) }
{
    match declared {
        Declared::Entry(entry) => add(list, Group::Entry(next.types, next.entries, *entry)),
        Declared::Interface(interface) => add(
            list,
            Group::Interface(next.types, next.interfaces, *interface),
        ),
        Declared::Class(class) => add_class(alloc, list, next.types, next.classes, *class),
        Declared::Global(name) => add_global(list, next.globals, name),
        Declared::Function(_) => Ok(()),
        Declared::Program(_) => Ok(()),
        Declared::Configuration(_) => Ok(()),
    }
}

/// The numbers behind a declaration.
fn behind(next: Next, declared: &Declared<'_>) -> Result<Next, NoMemory>
    ensures { IfOk result (λ n. listed.numbers_of n ≡ jobs.behind (listed.numbers_of next) (declared_as declared.now)) }
{
    let mut after = next;
    match declared {
        Declared::Entry(_) => {
            after.types = one_more(next.types)?;
            after.entries = one_more(next.entries)?;
        }
        Declared::Interface(_) => {
            after.types = one_more(next.types)?;
            after.interfaces = one_more(next.interfaces)?;
        }
        Declared::Class(_) => {
            after.types = one_more(next.types)?;
            after.classes = one_more(next.classes)?;
        }
        Declared::Global(_) => after.globals = one_more(next.globals)?,
        Declared::Function(_) => after.globals = one_more(next.globals)?,
        Declared::Program(_) => {}
        Declared::Configuration(_) => {}
    }
    Ok(after)
}

/// Lists what can be told of declarations.
fn groups_of<'a>(alloc: Global, declared: &[Declared<'a>]) -> Result<Vec<Group<'a>>, NoMemory>
    ensures { IfOk result (λ list. map group_of list.items ≡ listed.groups_from jobs.first_numbers (map declared_as declared.now)) }
{
    let mut list = Vec::new(alloc);
    let mut next = Next {
        types: 0,
        entries: 0,
        interfaces: 0,
        classes: 0,
        globals: 0,
    };
    for one in declared {
        add_groups(alloc, &mut list, next, one)?;
        next = behind(next, one)?;
    }
    Ok(list)
}

/// What can be told of a unit, in the order of the text.
pub fn list_groups<'a>(alloc: Global, decls: &'a [Decl<u32>]) -> Result<Vec<Group<'a>>, NoMemory>
    ensures { IfOk result (λ list. map group_of list.items ≡ listed.groups_in decls.now) }
{
    let declared = list_declarations(alloc, decls)?;
    let list = groups_of(alloc, &declared)?;
    Ok(list)
}
