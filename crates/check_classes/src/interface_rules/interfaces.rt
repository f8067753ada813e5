//! Interfaces.

ghost use Rattle.std.specs.Prelude.{◌≡◌, IfOk};
ghost use Rattle.st_rules.specs.Faults.{least};
ghost use Rattle.check_classes.specs.interface_rules.Interfaces.{ChecksInterface};
ghost use Rattle.check_classes.specs.interface_rules.Private.Interfaces.{IsInterface, count_faults};

use crate::base_rules::{CheckedInterfaces, check_interfaces};
use crate::interface_rules::prototypes::{CheckedPrototypes, check_prototypes};
use check_limits::{InterfaceHeights, methods_fault};
use check_names::name_rules::prototype_name_fault;
use plc_text::{Code, NoMemory};
use st_rules::earlier;
use st_tree::{InterfaceDecl, Name, Note};
use std::alloc::Global;
use symbol_table::unit_tables::UnitTables;

/// What is found out about an interface.
#[derive(Drop)]
pub struct CheckedInterface {
    /// The least rule that is broken, with its least line.
    pub least: Option<(Code, u32)>,
    pub interface: InterfaceDecl<Note>,
}

/// What an interface breaks by itself: by its names, by a cycle of interfaces, and by its counts.
#[derive(Clone, Copy)]
struct Broken {
    names: Option<(Code, u32)>,
    cycle: Option<(Code, u32)>,
    counts: Option<(Code, u32)>,
}

/// The number of methods, and the interfaces above, where they are too many.
fn count_fault(
    heights: &InterfaceHeights,
    number: u32,
    interface: &InterfaceDecl<u32>,
) -> Option<(Code, u32)>
    ensures { result ≡ least (count_faults heights.now.decls number interface.now) }
{
    let methods = methods_fault(interface.line, interface.methods.as_slice().len());
    let above = heights.too_many_above(interface.line, number);
    earlier(methods, above)
}

/// An interface of this name, with these interfaces above it and these methods, which breaks this besides.
fn interface_of(
    line: u32,
    name: Name,
    broken: &Broken,
    bases: CheckedInterfaces,
    methods: CheckedPrototypes,
) -> CheckedInterface
    ensures { IsInterface result line name broken.now bases methods }
{
    let front = earlier(earlier(broken.names, bases.least), broken.cycle);
    CheckedInterface {
        least: earlier(earlier(front, methods.least), broken.counts),
        interface: InterfaceDecl {
            line,
            name,
            bases: bases.into_interfaces(),
            methods: methods.into_prototypes(),
        },
    }
}

/// Checks an interface of a unit, by its number among the interfaces: the least of all rules that it breaks, but those of its own name, of
/// cycles and of the number of declarations, and its typed tree.
pub fn check_interface(
    alloc: Global,
    tables: &UnitTables<'_>,
    heights: &InterfaceHeights,
    number: u32,
    interface: &InterfaceDecl<u32>,
) -> Result<CheckedInterface, NoMemory>
    requires { heights.now ≡ tables.now }
    ensures { IfOk result (λ c. ChecksInterface c tables.now.decls number interface.now) }
{
    let name = interface.name.copy(alloc)?;
    let names = prototype_name_fault(alloc, interface)?;
    let bases = check_interfaces(alloc, tables.class_tables(), interface.bases.as_slice())?;
    let methods = check_prototypes(alloc, tables, interface.methods.as_slice())?;
    let cycle = tables.interface_tables().broken_interface(number);
    let counts = count_fault(heights, number, interface);
    let broken = Broken {
        names,
        cycle,
        counts,
    };
    Ok(interface_of(interface.line, name, &broken, bases, methods))
}
