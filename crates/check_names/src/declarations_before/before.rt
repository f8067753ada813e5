//! The names and the numbers of the declarations before one.

ghost use Rattle.std.specs.Prelude.{◌≡◌, ◌∷◌, [], ◌++◌, ◌+◌, ℕ, List, IfOk, OnOk};
ghost use Rattle.st_unit_rules.specs.declared_names.Declarations as declarations;
ghost use Rattle.st_unit_rules.specs.declared_names.Declarations.{Declaration, name_of};
ghost use Rattle.st_unit_rules.specs.declaration_list.Listed.{declared_as};
ghost use Rattle.st_rules.specs.Faults.{least};
ghost use Rattle.st_unit_rules.specs.NameRules.{texts};
ghost use Rattle.check_names.specs.name_spaces.Held.{Holds};
ghost use Rattle.check_names.specs.name_spaces.NamesIn.{names_of};
ghost use Rattle.check_names.specs.declarations_before.Before.{StandsBefore, common_faults};
ghost use Rattle.check_names.specs.declarations_before.Private.Counts.{CountsTo, one_if};

use crate::name_rules::{conversion_fault, hold_names};
use crate::name_spaces::HeldNames;
use declared_graph::DeclaredGraph;
use plc_text::{Code, NoMemory};
use st_rules::{earlier, when};
use st_tree::Name;
use st_unit_rules::declaration_list::Declared;
use std::alloc::Global;

/// A unit has at most so many declarations.
const DECLARATIONS: usize = 4_096;

/// The names that the space of all has before a declaration, and how many declarations of each sort stand before it.
pub struct DeclarationsBefore {
    /// With those of the instances of configurations.
    pub names: HeldNames,
    /// Of all sorts: the place of the next declaration.
    pub count: usize,
    pub entries: u32,
    pub interfaces: u32,
    pub classes: u32,
    pub configurations: u32,
}

// By hand, so that a drop is one call: a derived one is written out wherever a `?` may need it, and a proof goes over each part.
impl Drop for DeclarationsBefore {
    fn drop(self) {
        let DeclarationsBefore {
            names,
            count: _,
            entries: _,
            interfaces: _,
            classes: _,
            configurations: _,
        } = self;
        drop(names);
    }
}

/// How many declarations of each sort there are.
#[derive(Clone, Copy)]
struct Counts {
    entries: u32,
    interfaces: u32,
    classes: u32,
    configurations: u32,
}

fn one_more(number: u32, more: bool) -> Result<u32, NoMemory>
    ensures { IfOk result (λ n. n ≡ one_if more + number) }
{
    if more {
        number.checked_add(1).ok_or(NoMemory)
    } else {
        Ok(number)
    }
}

fn is_entry(declared: &Declared<'_>) -> bool
    ensures { result ≡ declarations.is_entry (declared_as declared.now) }
{
    match declared {
        Declared::Entry(_) => true,
        Declared::Global(_) => false,
        Declared::Interface(_) => false,
        Declared::Class(_) => false,
        Declared::Function(_) => false,
        Declared::Program(_) => false,
        Declared::Configuration(_) => false,
    }
}

fn is_interface(declared: &Declared<'_>) -> bool
    ensures { result ≡ declarations.is_interface (declared_as declared.now) }
{
    match declared {
        Declared::Interface(_) => true,
        Declared::Entry(_) => false,
        Declared::Global(_) => false,
        Declared::Class(_) => false,
        Declared::Function(_) => false,
        Declared::Program(_) => false,
        Declared::Configuration(_) => false,
    }
}

fn is_class(declared: &Declared<'_>) -> bool
    ensures { result ≡ declarations.is_class (declared_as declared.now) }
{
    match declared {
        Declared::Class(_) => true,
        Declared::Entry(_) => false,
        Declared::Global(_) => false,
        Declared::Interface(_) => false,
        Declared::Function(_) => false,
        Declared::Program(_) => false,
        Declared::Configuration(_) => false,
    }
}

fn is_configuration(declared: &Declared<'_>) -> bool
    ensures { result ≡ declarations.is_configuration (declared_as declared.now) }
{
    match declared {
        Declared::Configuration(_) => true,
        Declared::Entry(_) => false,
        Declared::Global(_) => false,
        Declared::Interface(_) => false,
        Declared::Class(_) => false,
        Declared::Function(_) => false,
        Declared::Program(_) => false,
    }
}

/// The counts with one more declaration.
fn counted(before: &DeclarationsBefore, declared: &Declared<'_>) -> Result<Counts, NoMemory>
    ensures { IfOk result (λ c. CountsTo c before.now (declared_as declared.now)) }
{
    let entries = one_more(before.entries, is_entry(declared))?;
    let interfaces = one_more(before.interfaces, is_interface(declared))?;
    let classes = one_more(before.classes, is_class(declared))?;
    let configurations = one_more(before.configurations, is_configuration(declared))?;
    Ok(Counts {
        entries,
        interfaces,
        classes,
        configurations,
    })
}

impl DeclarationsBefore {
    /// There are none.
    pub fn none(alloc: Global) -> DeclarationsBefore
        ensures { StandsBefore result [] [] }
    {
        DeclarationsBefore {
            names: HeldNames::new(alloc),
            count: 0,
            entries: 0,
            interfaces: 0,
            classes: 0,
            configurations: 0,
        }
    }

    /// The least of the rules that any declaration may break by its name, its place and what it contains: E04 for a name that is
    /// declared already or is that of a conversion, E06 for what contains or needs itself, E16 for the 4,097th declaration.
    pub fn common_fault(
        &self,
        graph: &DeclaredGraph,
        declared: &Declared<'_>,
    ) -> Option<(Code, u32)>
        ensures { (earlier : List Declaration) (names : List (List ℕ)) → StandsBefore self.now earlier names → result ≡ least (common_faults graph.now.decls earlier names (declared_as declared.now)) }
    {
        let name = declared.name();
        let line = declared.heading_line();
        let again = when(self.names.has(&name.text), Code::E04, name.line);
        let conversion = conversion_fault(name);
        let cycle = graph.cycle_fault(line, self.count);
        let many = when(self.count == DECLARATIONS, Code::E16, line);
        earlier(earlier(earlier(again, conversion), cycle), many)
    }

    /// Counts a declaration, and holds its name.
    pub fn pass(&mut self, alloc: Global, declared: &Declared<'_>) -> Result<(), NoMemory>
        ensures { OnOk result ((earlier : List Declaration) (names : List (List ℕ)) → StandsBefore self.old earlier names → StandsBefore self.new (earlier ++ declared_as declared.now ∷ []) (names ++ (name_of (declared_as declared.now)).text ∷ [])) }
    {
        let counts = counted(self, declared)?;
        let count = self.count.checked_add(1).ok_or(NoMemory)?;
        self.names.hold(alloc, &declared.name().text)?;
        self.count = count;
        self.entries = counts.entries;
        self.interfaces = counts.interfaces;
        self.classes = counts.classes;
        self.configurations = counts.configurations;
        Ok(())
    }

    /// Holds the names of program instances, which are no declarations.
    pub fn pass_names(&mut self, alloc: Global, more: &[&Name]) -> Result<(), NoMemory>
        ensures { OnOk result ((earlier : List Declaration) (names : List (List ℕ)) → StandsBefore self.old earlier names → StandsBefore self.new earlier (names ++ texts (names_of more.now))) }
    {
        hold_names(alloc, &mut self.names, more)
    }
}
