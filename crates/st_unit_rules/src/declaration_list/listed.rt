//! The declarations of a unit, one by one.

ghost use Rattle.std.specs.Prelude.{◌≡◌, ◌∷◌, [], ◌++◌, map, flat_map, IfOk, OnOk};
ghost use Rattle.st_unit_rules.specs.declared_names.Declarations as declarations;
ghost use Rattle.st_unit_rules.specs.declared_names.Declarations.{a_global, an_entry, declarations_of};
ghost use Rattle.st_unit_rules.specs.declaration_list.Listed.{declared_as};
ghost use Rattle.st_unit_rules.specs.declaration_list.Written.{global_of};

use crate::declaration_list::written::{WrittenName, add_sections, item_line, section_names};
use crate::declared_names::resource_globals;
use plc_text::NoMemory;
use st_tree::{
    ClassDecl, Configuration, Decl, FunctionDecl, InterfaceDecl, Name, ProgramDecl, Section,
    TypeDecl,
};
use std::alloc::Global;

/// A declaration of a unit: an entry of TYPE, a global, or another one.
#[derive(Clone, Copy)]
pub enum Declared<'a> {
    Entry(&'a TypeDecl<u32>),
    Global(WrittenName<'a>),
    Interface(&'a InterfaceDecl<u32>),
    Class(&'a ClassDecl<u32>),
    Function(&'a FunctionDecl<u32>),
    Program(&'a ProgramDecl<u32>),
    Configuration(&'a Configuration<u32>),
}

impl<'a> Declared<'a> {
    /// The name that it declares.
    pub fn name(&self) -> &'a Name
        ensures { result.now ≡ declarations.name_of (declared_as self.now) }
    {
        match self {
            Declared::Entry(entry) => &entry.name,
            Declared::Global(global) => global.name,
            Declared::Interface(interface) => &interface.name,
            Declared::Class(class) => &class.name,
            Declared::Function(function) => &function.name,
            Declared::Program(program) => &program.name,
            Declared::Configuration(configuration) => &configuration.name,
        }
    }

    /// The line of its heading: an entry of TYPE stands at its name, a global at its item.
    pub fn heading_line(&self) -> u32
        ensures { result ≡ declarations.heading_line (declared_as self.now) }
    {
        match self {
            Declared::Entry(entry) => entry.name.line,
            Declared::Global(global) => item_line(global.item),
            Declared::Interface(interface) => interface.line,
            Declared::Class(class) => class.line,
            Declared::Function(function) => function.line,
            Declared::Program(program) => program.line,
            Declared::Configuration(configuration) => configuration.line,
        }
    }
}

/// Adds one declaration.
fn add<'a>(list: &mut Vec<Declared<'a>>, one: Declared<'a>) -> Result<(), NoMemory>
    ensures { OnOk result (map declared_as list.new.items ≡ map declared_as list.old.items ++ (declared_as one.entry ∷ [])) }
{
    list.push(one)?;
    Ok(())
}

fn add_entries<'a>(
    list: &mut Vec<Declared<'a>>,
    entries: &'a [TypeDecl<u32>],
) -> Result<(), NoMemory>
    ensures { OnOk result (map declared_as list.new.items ≡ map declared_as list.old.items ++ map an_entry entries.now) }
{
    for entry in entries {
        add(list, Declared::Entry(entry))?;
    }
    Ok(())
}

fn add_globals<'a>(list: &mut Vec<Declared<'a>>, names: &[WrittenName<'a>]) -> Result<(), NoMemory>
    ensures { OnOk result (map declared_as list.new.items ≡ map declared_as list.old.items ++ map a_global (map global_of names.now)) }
{
    for name in names {
        add(list, Declared::Global(*name))?;
    }
    Ok(())
}

/// Adds the globals of a section.
#[tactic(auto, using(crate::proofs::declaration_list::GlobalLaws::section_globals_are))]
fn add_section_globals<'a>(
    alloc: Global,
    list: &mut Vec<Declared<'a>>,
    section: &'a Section<u32>,
) -> Result<(), NoMemory>
    ensures { OnOk result (map declared_as list.new.items ≡ map declared_as list.old.items ++ declarations.globals_of_section section.now) }
{
    let names = section_names(alloc, section)?;
    add_globals(list, &names)
}

/// The globals of a configuration, those of its resource behind its own.
#[tactic(auto, using(crate::proofs::declaration_list::GlobalLaws::configured))]
fn configuration_names<'a>(
    alloc: Global,
    configuration: &'a Configuration<u32>,
) -> Result<Vec<WrittenName<'a>>, NoMemory>
    ensures { IfOk result (λ names. map a_global (map global_of names.items) ≡ flat_map declarations.globals_of_section (declarations.configuration_globals configuration.now)) }
{
    let mut names = Vec::new(alloc);
    add_sections(&mut names, configuration.globals.as_slice())?;
    add_sections(&mut names, resource_globals(&configuration.resource))?;
    Ok(names)
}

/// Adds a configuration and its globals.
fn add_configuration<'a>(
    alloc: Global,
    list: &mut Vec<Declared<'a>>,
    configuration: &'a Configuration<u32>,
) -> Result<(), NoMemory>
    ensures { OnOk result (map declared_as list.new.items ≡ map declared_as list.old.items ++ (declarations.a_configuration configuration.now ∷ flat_map declarations.globals_of_section (declarations.configuration_globals configuration.now))) }
{
    let names = configuration_names(alloc, configuration)?;
    add(list, Declared::Configuration(configuration))?;
    add_globals(list, &names)
}

fn add_declaration<'a>(
    alloc: Global,
    list: &mut Vec<Declared<'a>>,
    decl: &'a Decl<u32>,
) -> Result<(), NoMemory>
    ensures { OnOk result (map declared_as list.new.items ≡ map declared_as list.old.items ++ declarations_of decl.now) }
{
    match decl {
        Decl::Types(_, entries) => add_entries(list, entries.as_slice()),
        Decl::Globals(section) => add_section_globals(alloc, list, section),
        Decl::Interface(interface) => add(list, Declared::Interface(interface)),
        Decl::Class(class) => add(list, Declared::Class(class)),
        Decl::Function(function) => add(list, Declared::Function(function)),
        Decl::Program(program) => add(list, Declared::Program(program)),
        Decl::Configuration(configuration) => add_configuration(alloc, list, configuration),
    }
}

/// The declarations of a unit, one by one in the order of the text.
pub fn list_declarations<'a>(
    alloc: Global,
    decls: &'a [Decl<u32>],
) -> Result<Vec<Declared<'a>>, NoMemory>
    ensures { IfOk result (λ list. map declared_as list.items ≡ declarations.declarations decls.now) }
{
    let mut list = Vec::new(alloc);
    for decl in decls {
        add_declaration(alloc, &mut list, decl)?;
    }
    Ok(list)
}
