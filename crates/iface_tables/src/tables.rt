//! Which method a class runs for a method of an interface, and which rules of interfaces are broken.

ghost use Rattle.std.specs.Prelude.{◌≡◌, IfOk};
ghost use Rattle.st_rules.specs.Faults.{least};
ghost use Rattle.st_rules.specs.Classes.{classes_in};
ghost use Rattle.st_rules.specs.Interfaces as interfaces;
ghost use Rattle.st_rules.specs.Interfaces.{interfaces_in};
ghost use Rattle.st_rules.specs.InterfaceRules as rules;

use crate::broken::{class_fault, interface_fault};
use crate::declarers::{Declarers, declarers, method_named};
use crate::prototypes::all_prototypes;
use crate::targets::target;
use class_tables::ClassTables;
use plc_text::{Code, Items, NoMemory, Text};
use st_rules::{MethodId, PrototypeId, Signatures};
use st_tree::Unit;
use std::alloc::Global;
use std::marker::Model;

/// The interfaces of a unit, with the tables of its classes, which contracts see as the unit. Classes and interfaces are told by their
/// numbers, from 0 in the order of the text.
pub struct IfaceTables {
    classes: ClassTables,
    prototypes: Items<Items<Text>>,
    declarers: Declarers,
}

// By hand, so that a drop is one call: a derived one is written out wherever a `?` may need it.
impl Drop for IfaceTables {
    fn drop(self) {
        let IfaceTables {
            classes: _,
            prototypes: _,
            declarers: _,
        } = self;
    }
}

impl Model for IfaceTables {
    ghost use Rattle.st_tree.specs.declared.unit.Unit.{Unit};

    ghost Value = { Unit };

    ghost use Rattle.st_tree.specs.contracts.unit.Unit as unit_type;

    ghost coded = { unit_type.the_row.coded };

    ghost use Rattle.iface_tables.specs.Private.Tables.{AreTables};

    ghost view = { λ t. t.classes };

    ghost invariant = { λ t. AreTables t.classes t.prototypes t.declarers };
}

impl IfaceTables {
    /// The tables of a unit.
    pub fn build(alloc: Global, unit: &Unit) -> Result<IfaceTables, NoMemory>
        ensures { IfOk result (λ tables. tables ≡ unit.now) }
    {
        let prototypes = all_prototypes(alloc, unit.decls.as_slice())?;
        let declarers = declarers(alloc, prototypes.as_slice())?;
        let classes = ClassTables::build(alloc, unit)?;
        Ok(IfaceTables {
            classes,
            prototypes,
            declarers,
        })
    }

    /// The tables of the unit's classes.
    pub fn classes(&self) -> &ClassTables
        ensures { result.now ≡ self.now }
    {
        &self.classes
    }

    /// The method that a class runs for a method of an interface: none where the class does not conform to it, or has no PUBLIC method
    /// of that name.
    pub fn target(&self, class: u32, interface: u32, method: u32) -> Option<MethodId>
        ensures { result ≡ rules.target (classes_in self.now.decls) (interfaces_in self.now.decls) class interface method }
    {
        target(
            &self.classes,
            self.prototypes.as_slice(),
            class,
            interface,
            method as usize,
        )
    }

    /// The method that a name means in an interface: its own, or else what the name means in the first interface behind EXTENDS, in
    /// written order, that has one.
    pub fn prototype_of(&self, interface: u32, name: &Text) -> Option<PrototypeId>
        ensures { result ≡ interfaces.interface_lookup (interfaces_in self.now.decls) interface name.now }
    {
        method_named(&self.classes, &self.declarers, interface, name)
    }

    /// Whether an interface is another one or extends it, in any number of steps.
    pub fn extends(&self, interface: u32, other: u32) -> bool
        ensures { result ≡ interfaces.extends (interfaces_in self.now.decls) interface other }
    {
        self.classes.extends(interface, other)
    }

    /// E06 and the line of an interface that lies on a cycle of interfaces.
    pub fn broken_interface(&self, interface: u32) -> Option<(Code, u32)>
        ensures { result ≡ least (rules.interface_faults (interfaces_in self.now.decls) interface) }
    {
        interface_fault(&self.classes, interface)
    }

    /// E11 and the line of a class that is not abstract and has an abstract method, or no PUBLIC method of equal signature for one of an
    /// interface to which it conforms. The signatures are those of all methods of classes and interfaces, by their numbers.
    pub fn broken_class<V: PartialEq>(
        &self,
        class: u32,
        signatures: &Signatures<V>,
    ) -> Option<(Code, u32)>
        ensures { result ≡ least (rules.concrete_class_faults (classes_in self.now.decls) (interfaces_in self.now.decls) V.eq signatures.now class) }
    {
        class_fault(&self.classes, self.prototypes.as_slice(), signatures, class)
    }
}
