//! Which method a name means in a class, which slot it has, and to what a class conforms.

ghost use Rattle.std.specs.Prelude.{◌≡◌, length, None, Some, if◌then◌else◌, option_and_then, option_map, is_some, slice_get, IfOk};
ghost use Rattle.st_rules.specs.Modifiers.{is_abstract};
ghost use Rattle.st_rules.specs.Faults.{least};
ghost use Rattle.st_rules.specs.Numbered.{passes_if_there};
ghost use Rattle.st_rules.specs.ClassRules as rules;
ghost use Rattle.st_rules.specs.InterfaceRules as abstracts;
ghost use Rattle.st_rules.specs.Classes as classes;
ghost use Rattle.st_rules.specs.Classes.{classes_in};
ghost use Rattle.st_rules.specs.Interfaces as interfaces;
ghost use Rattle.st_rules.specs.Interfaces.{interfaces_in};
ghost use Rattle.class_tables.specs.Slots as slots;
ghost use Rattle.class_tables.specs.Private.Tables.{AreTables};

use crate::broken::class_fault;
use crate::chain::base;
use crate::found;
use crate::graph::lead;
use crate::settle::{Settled, settle_all};
use class_rows::{UnitNames, UnitRows, first_place, names_of_unit, unit_rows};
use graph_reach::Row;
use plc_text::{Code, NoMemory, Text};
use st_rules::{MethodId, Signatures};
use st_tree::{Decl, SeenUnit, Unit};
use st_types::StType;
use std::alloc::Global;
use std::marker::Model;

/// What tables keep, without the unit that contracts see.
#[derive(Drop)]
struct Parts {
    names: UnitNames,
    rows: UnitRows,
    settled: Settled,
    reach: Vec<Row>,
}

fn parts_of(alloc: Global, decls: &[Decl<u32>]) -> Result<Parts, NoMemory>
    ensures { IfOk result (λ p. AreTables (classes_in decls.now) (interfaces_in decls.now) p.names p.rows p.settled p.reach.items) }
{
    let names = names_of_unit(alloc, decls)?;
    let rows = unit_rows(alloc, &names, decls)?;
    let settled = settle_all(alloc, rows.classes.as_slice(), names.methods.len())?;
    let reach = lead(alloc, &rows)?;
    Ok(Parts {
        names,
        rows,
        settled,
        reach,
    })
}

/// The classes of a unit, which contracts see as the unit. Classes and interfaces are told by their numbers, from 0 in the order of the
/// text, function blocks among the classes. What a name means is decided on cycles of bases and interfaces too.
pub struct ClassTables {
    of: SeenUnit,
    names: UnitNames,
    rows: UnitRows,
    settled: Settled,
    reach: Vec<Row>,
}

// By hand, so that a drop is one call: a derived one is written out wherever a `?` may need it.
impl Drop for ClassTables {
    fn drop(self) {
        let ClassTables {
            of: _,
            names: _,
            rows: _,
            settled: _,
            reach: _,
        } = self;
    }
}

impl Model for ClassTables {
    ghost use Rattle.st_tree.specs.declared.unit.Unit.{Unit};

    ghost Value = { Unit };

    ghost use Rattle.st_tree.specs.contracts.unit.Unit as unit_type;

    ghost coded = { unit_type.the_row.coded };

    ghost use Rattle.st_rules.specs.Classes.{classes_in};
    ghost use Rattle.st_rules.specs.Interfaces.{interfaces_in};
    ghost use Rattle.class_tables.specs.Private.Tables.{AreTables};

    ghost view = { λ t. t.of.value };

    ghost invariant = { λ t. AreTables (classes_in t.of.value.decls) (interfaces_in t.of.value.decls) t.names t.rows t.settled t.reach.items };
}

impl ClassTables {
    /// The tables of a unit.
    pub fn build(alloc: Global, unit: &Unit) -> Result<ClassTables, NoMemory>
        ensures { IfOk result (λ tables. tables ≡ unit.now) }
    {
        let parts = parts_of(alloc, unit.decls.as_slice())?;
        let Parts {
            names,
            rows,
            settled,
            reach,
        } = parts;
        Ok(ClassTables {
            of: SeenUnit::of(unit),
            names,
            rows,
            settled,
            reach,
        })
    }

    /// The class or function block that a name means: the first of that name.
    pub fn class_named(&self, name: &Text) -> Option<u32>
        ensures { result ≡ classes.class_named (classes_in self.now.decls) name.now }
    {
        first_place(&self.names.classes, name)
    }

    /// The base of a class, where it is found.
    pub fn base_of(&self, class: u32) -> Option<u32>
        ensures { result ≡ classes.base_of (classes_in self.now.decls) class }
    {
        base(self.rows.classes.as_slice(), class)
    }

    /// Whether a class has EXTENDS, also where its base is not found.
    pub fn has_extends(&self, class: u32) -> bool
        ensures { result ≡ passes_if_there (λ class. is_some class.base) (slice_get (classes_in self.now.decls) class) }
    {
        found::has_extends(&self.rows, class)
    }

    /// The interface that a name means: the first of that name.
    pub fn interface_named(&self, name: &Text) -> Option<u32>
        ensures { result ≡ interfaces.interface_named (interfaces_in self.now.decls) name.now }
    {
        first_place(&self.names.interfaces, name)
    }

    /// The method that a name means in a class: the nearest one of that name in the chain of the class.
    pub fn method_of(&self, class: u32, name: &Text) -> Option<MethodId>
        ensures { result ≡ classes.lookup (classes_in self.now.decls) class name.now }
    {
        found::method(&self.names, &self.settled, class, name)
    }

    /// The slot of the method that a name means in a class: the same in each derived class, and another for another name.
    pub fn slot_of(&self, class: u32, name: &Text) -> Option<u32>
        ensures { result ≡ slots.slot (classes_in self.now.decls) class name.now }
    {
        found::slot(&self.names, &self.settled, class, name)
    }

    /// Whether a class conforms to a class, an interface or a reference to a class.
    #[tactic(auto, unfolding(st_rules::specs::Interfaces::conforms))]
    pub fn conforms(&self, class: u32, target: &StType) -> bool
        ensures { result ≡ interfaces.conforms (classes_in self.now.decls) (interfaces_in self.now.decls) class target.now }
    {
        match target {
            StType::Instance(other) => found::has_above(&self.settled, class, *other),
            StType::Reference(other) => found::has_above(&self.settled, class, *other),
            StType::Interface(interface) => found::conforms_to(
                &self.rows,
                self.names.interface_count,
                &self.reach,
                class,
                *interface,
            ),
            StType::Elementary(_) => false,
            StType::Enumeration(_) => false,
            StType::Structure(_) => false,
            StType::Array(_, _, _) => false,
        }
    }

    /// Whether a class declares or inherits an abstract method.
    pub fn has_abstract_method(&self, class: u32) -> bool
        ensures { result ≡ abstracts.has_abstract_method (classes_in self.now.decls) class }
    {
        found::has_abstract(&self.settled, class)
    }

    /// Whether a method is PUBLIC.
    pub fn is_public(&self, id: MethodId) -> bool
        ensures { result ≡ abstracts.is_public (classes_in self.now.decls) id }
    {
        found::is_public(&self.rows, id)
    }

    /// The line of a class, if it is not abstract.
    pub fn concrete_line(&self, class: u32) -> Option<u32>
        ensures { result ≡ option_and_then (λ class. if is_abstract class.modifiers then None else Some class.line) (slice_get (classes_in self.now.decls) class) }
    {
        found::concrete_line(&self.rows, class)
    }

    /// The number of interfaces.
    pub fn interface_count(&self) -> u32
        ensures { result ≡ length (interfaces_in self.now.decls) }
    {
        self.names.interface_count
    }

    /// The line of an interface.
    pub fn interface_line(&self, interface: u32) -> Option<u32>
        ensures { result ≡ option_map (λ interface. interface.line) (slice_get (interfaces_in self.now.decls) interface) }
    {
        found::interface_line(&self.rows, interface)
    }

    /// Whether an interface extends one that extends it.
    pub fn lies_on_interface_cycle(&self, interface: u32) -> bool
        ensures { result ≡ abstracts.lies_on_interface_cycle (interfaces_in self.now.decls) interface }
    {
        found::lies_on_cycle(&self.rows, &self.reach, interface)
    }

    /// The least of E06 and E12 that a class breaks, and its line: a cycle of bases, and the rules of bases and of methods that are
    /// overridden, hooks or abstract. The signatures are those of all methods, by the numbers of class and method.
    pub fn broken<V: PartialEq>(
        &self,
        class: u32,
        signatures: &Signatures<V>,
    ) -> Option<(Code, u32)>
        ensures { result ≡ least (rules.class_faults V.eq (classes_in self.now.decls) signatures.now class) }
    {
        class_fault(
            &self.names.methods,
            self.rows.classes.as_slice(),
            &self.settled,
            signatures,
            class,
        )
    }

    /// The interfaces behind EXTENDS of an interface, in written order, where they are found.
    pub fn extended(&self, interface: u32) -> &[u32]
        ensures { result.now ≡ interfaces.extended (interfaces_in self.now.decls) interface }
    {
        found::extended(&self.rows, interface)
    }

    /// Whether an interface is another one or extends it, in any number of steps.
    pub fn extends(&self, interface: u32, other: u32) -> bool
        ensures { result ≡ interfaces.extends (interfaces_in self.now.decls) interface other }
    {
        found::extends(&self.rows, &self.reach, interface, other)
    }
}
