//! Interfaces with too many interfaces above.

ghost use Rattle.std.specs.Prelude.{◌≡◌, ◌++◌, ℕ, suc, length, IfOk, OnOk};
ghost use Rattle.st_rules.specs.Interfaces.{interfaces_in, interfaces_named, extended};
ghost use Rattle.st_rules.specs.Faults.{least};
ghost use Rattle.st_unit_rules.specs.Limits as limits;
ghost use Rattle.st_unit_rules.specs.Limits.{most_steps, has_way};
ghost use Rattle.graph_cycles.specs.Graph.{marked};
ghost use Rattle.declared_graph.specs.Private.Edges.{edges_to};

use crate::base_limits::ways::{high_nodes, is_marked};
use class_tables::ClassTables;
use graph_cycles::Edge;
use plc_text::{Code, NoMemory};
use st_rules::when;
use st_tree::{Decl, SeenUnit, Unit, Used};
use std::alloc::Global;
use std::marker::Model;

/// Adds edges to the interfaces behind EXTENDS, as far as they are found.
fn add_bases(
    classes: &ClassTables,
    edges: &mut Vec<Edge>,
    from: usize,
    bases: &[Used<u32>],
) -> Result<(), NoMemory>
    ensures { OnOk result (edges.new.items ≡ edges.old.items ++ edges_to from (interfaces_named (interfaces_in classes.now.decls) bases.now)) }
{
    let mut left = bases;
    'bases: while let Some((base, behind)) = left.split_first() {
        if let Some(to) = classes.interface_named(&base.text) {
            edges.push(Edge {
                from,
                to: to as usize,
            })?;
        }
        left = behind;
    }
    Ok(())
}

/// The interfaces with too many above, by their number.
fn high_interfaces(
    alloc: Global,
    classes: &ClassTables,
    decls: &[Decl<u32>],
) -> Result<Vec<bool>, NoMemory>
    requires { classes.now.decls ≡ decls.now }
    ensures { IfOk result (λ marks. (i : ℕ) → marked marks.items i ≡ has_way (extended (interfaces_in decls.now)) (length (interfaces_in decls.now)) (suc most_steps) i) }
{
    let mut edges = Vec::new(alloc);
    let mut number = 0usize;
    let mut left = decls;
    'decls: while let Some((decl, behind)) = left.split_first() {
        if let Decl::Interface(interface) = decl {
            add_bases(classes, &mut edges, number, interface.bases.as_slice())?;
            number = number.checked_add(1).ok_or(NoMemory)?;
        }
        left = behind;
    }
    let marks = high_nodes(alloc, number, &edges)?;
    Ok(marks)
}

/// Which interfaces have too many above, which contracts see as the unit.
#[derive(Drop)]
pub struct InterfaceHeights {
    of: SeenUnit,
    high: Vec<bool>,
}

impl Model for InterfaceHeights {
    ghost use Rattle.st_tree.specs.declared.unit.Unit.{Unit};

    ghost Value = { Unit };

    ghost use Rattle.st_tree.specs.contracts.unit.Unit as unit_type;

    ghost coded = { unit_type.the_row.coded };

    ghost use Rattle.st_rules.specs.Interfaces.{interfaces_in};
    ghost use Rattle.check_limits.specs.base_limits.Private.Heights.{AreHigh};

    ghost view = { λ t. t.of.value };

    ghost invariant = { λ t. AreHigh (interfaces_in t.of.value.decls) t.high.items };
}

impl InterfaceHeights {
    /// The heights of the interfaces of a unit, from its tables. It takes time linear in what stands behind EXTENDS.
    pub fn build(
        alloc: Global,
        unit: &Unit,
        classes: &ClassTables,
    ) -> Result<InterfaceHeights, NoMemory>
        requires { classes.now ≡ unit.now }
        ensures { IfOk result (λ heights. heights ≡ unit.now) }
    {
        let high = high_interfaces(alloc, classes, unit.decls.as_slice())?;
        Ok(InterfaceHeights {
            of: SeenUnit::of(unit),
            high,
        })
    }

    /// E16 at the line, where more than 64 interfaces stand above the interface, one above the other, before a cycle.
    pub fn too_many_above(&self, line: u32, interface: u32) -> Option<(Code, u32)>
        ensures { result ≡ least (limits.too_many_interfaces_above line (interfaces_in self.now.decls) interface) }
    {
        when(is_marked(&self.high, interface as usize), Code::E16, line)
    }
}
