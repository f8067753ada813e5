//! The classes that conform to each type.

ghost use Rattle.std.specs.Prelude.{◌≡◌, ℕ, ◌<◌, true, length, IfOk, OnOk, IsTrue};
ghost use Rattle.st_types.specs.declared.st_type.StType.TheVariants as type;
ghost use Rattle.st_values.specs.Program.{conforms};
ghost use Rattle.st_values.specs.View.{program_of};
ghost use Rattle.footprints.specs.reached_routines.Conformers.{AreConformers, classes_of};
ghost use Rattle.footprints.specs.reached_routines.Families.{family_of};
ghost use Rattle.footprints.specs.reached_routines.Private.Families as words;

use plc_text::{Items, NoMemory, narrowed};
use program_tables::ProgramTables;
use st_tree::Program;
use st_types::StType;
use std::alloc::Global;
use std::collections::HashMap;

/// A class or an interface: whether it is an interface, and its number.
pub type Family = (bool, u32);

type Families = HashMap<Family, Items<u32>>;

/// The classes and programs that conform to each type.
#[derive(Drop)]
pub struct Conformers {
    families: Families,
}

/// The class or interface that a type is or refers to.
pub fn family_of(kind: &StType) -> Option<Family>
    ensures { result ≡ family_of kind.now }
{
    match kind {
        StType::Instance(class) => Some((false, *class)),
        StType::Reference(class) => Some((false, *class)),
        StType::Interface(interface) => Some((true, *interface)),
        StType::Elementary(_) => None,
        StType::Enumeration(_) => None,
        StType::Structure(_) => None,
        StType::Array(_, _, _) => None,
    }
}

/// Puts the class behind those of the family.
fn note(alloc: Global, families: &mut Families, family: Family, class: u32) -> Result<(), NoMemory>
    ensures { OnOk result (words.IsNoted families.old families.new family class) }
{
    let mut classes = match families.remove(&family) {
        Some(classes) => classes,
        None => Items::new(alloc),
    };
    classes.push(class)?;
    families.insert(family, classes)?;
    Ok(())
}

/// Puts the class behind those of each class of its chain.
fn note_chain(
    alloc: Global,
    families: &mut Families,
    chain: &[u32],
    class: u32,
) -> Result<(), NoMemory>
    ensures { OnOk result (words.NotesBut (words.IsClassIn chain.now) words.Nothing class families.old families.new) }
{
    let mut left = chain;
    'chain: while let Some((above, behind)) = left.split_first() {
        note(alloc, families, (false, *above), class)?;
        left = behind;
    }
    Ok(())
}

/// Puts the class behind those of an interface, if it conforms to it.
fn note_interface(
    alloc: Global,
    families: &mut Families,
    tables: &ProgramTables,
    interface: u32,
    class: u32,
) -> Result<(), NoMemory>
    ensures { OnOk result (words.NotesBut (words.IsConformedTo (program_of tables.now) class interface) words.Nothing class families.old families.new) }
{
    if tables.conforms(class, &StType::Interface(interface)) {
        note(alloc, families, (true, interface), class)?;
    }
    Ok(())
}

/// Puts the class behind those of each interface to which it conforms.
fn note_interfaces(
    alloc: Global,
    families: &mut Families,
    tables: &ProgramTables,
    count: u32,
    class: u32,
) -> Result<(), NoMemory>
    ensures { OnOk result (words.NotesBut (words.IsInterfaceUpTo (program_of tables.now) class count) words.Nothing class families.old families.new) }
{
    for interface in 0..count {
        note_interface(alloc, families, tables, interface, class)?;
    }
    Ok(())
}

/// Puts the class behind those of all to which it conforms.
fn note_class(
    alloc: Global,
    families: &mut Families,
    tables: &ProgramTables,
    interfaces: u32,
    class: u32,
) -> Result<(), NoMemory>
    requires { interfaces ≡ length tables.now.interfaces }
    ensures { OnOk result (words.NotesBut (words.Conforms (program_of tables.now) class) words.Nothing class families.old families.new) }
{
    let chain = tables.chain(alloc, class)?;
    note_chain(alloc, families, chain.as_slice(), class)?;
    note_interfaces(alloc, families, tables, interfaces, class)?;
    Ok(())
}

fn noted(
    alloc: Global,
    tables: &ProgramTables,
    interfaces: u32,
    classes: u32,
) -> Result<Families, NoMemory>
    requires { interfaces ≡ length tables.now.interfaces }
    ensures { IfOk result (λ found. words.AreFamilies (program_of tables.now) classes found) }
{
    let mut found: Families = HashMap::new(alloc);
    for class in 0..classes {
        note_class(alloc, &mut found, tables, interfaces, class)?;
    }
    Ok(found)
}

/// The classes of a family.
fn classes_at(families: &Families, family: Family) -> &[u32]
    ensures { result.now ≡ words.classes_at families.now family }
{
    match families.get(&family) {
        Some(classes) => classes.as_slice(),
        None => &[],
    }
}

impl Conformers {
    /// The classes and programs that conform to each type. The tables are those of the program. Linear in what the chains of the classes
    /// hold, and one test for each class and interface.
    pub fn build(
        alloc: Global,
        tables: &ProgramTables,
        program: &Program,
    ) -> Result<Conformers, NoMemory>
        requires { tables.now ≡ program.now }
        ensures { IfOk result (λ made. AreConformers (program_of program.now) made) }
    {
        let interfaces = narrowed(program.interfaces.len())?;
        let classes = narrowed(tables.class_count())?;
        let families = noted(alloc, tables, interfaces, classes)?;
        Ok(Conformers { families })
    }

    /// The classes and programs that conform to a class, to an interface or to what a reference refers to; none for other types.
    pub fn of(&self, kind: &StType) -> &[u32]
        ensures { result.now ≡ classes_of self.now kind.now }
    {
        match family_of(kind) {
            Some(family) => classes_at(&self.families, family),
            None => &[],
        }
    }
}
