//! What contains itself, what leads there, and constants that need themselves.

ghost use Rattle.std.specs.Prelude.{◌≡◌, ℕ, map, IfOk};
ghost use Rattle.st_rules.specs.Faults.{least};
ghost use Rattle.st_unit_rules.specs.declared_names.Declarations.{declarations};
ghost use Rattle.st_unit_rules.specs.Cycles as cycles;
ghost use Rattle.graph_cycles.specs.Graph.{marked};
ghost use Rattle.declared_graph.specs.Private.Known.{declared, AreTables};
ghost use Rattle.declared_graph.specs.Private.Edges.{edges_from};
ghost use Rattle.declared_graph.specs.Private.Contained.{contained_of};

use crate::contained::contained_edges;
use crate::hubs::{cycles_by_hubs, hub_edges};
use crate::known::{Known, Places, know, place_of};
use crate::needed::{add_all_needed, first_flags};
use graph_cycles::{Edge, cycle_nodes, nodes_to_cycles};
use plc_text::{Code, NoMemory, Text};
use st_rules::{earlier, when};
use st_tree::{Decl, SeenUnit, Unit};
use st_unit_rules::declaration_list::list_declarations;
use std::alloc::Global;
use std::marker::Model;

/// Which declarations contain themselves.
fn containing(alloc: Global, known: &Known<'_>, edges: &[Edge]) -> Result<Vec<bool>, NoMemory>
    requires { edges.now ≡ edges_from 0 (map (contained_of (declared known.now)) known.now.list.now) }
    ensures { IfOk result (λ marks. (i : ℕ) → marked marks.items i ≡ cycles.contains_itself (declared known.now) i) }
{
    let marks = cycle_nodes(alloc, known.list.len(), edges)?;
    Ok(marks)
}

/// Which declarations contain themselves or lead to one that does.
fn leading(alloc: Global, known: &Known<'_>, edges: &[Edge]) -> Result<Vec<bool>, NoMemory>
    requires { edges.now ≡ edges_from 0 (map (contained_of (declared known.now)) known.now.list.now) }
    ensures { IfOk result (λ marks. (i : ℕ) → marked marks.items i ≡ cycles.leads_to_cycle (declared known.now) i) }
{
    let marks = nodes_to_cycles(alloc, known.list.len(), edges)?;
    Ok(marks)
}

/// Which aliases and constants need themselves.
fn needing(alloc: Global, known: &Known<'_>, decls: &[Decl<u32>]) -> Result<Vec<bool>, NoMemory>
    requires tables { AreTables known.now }
    requires list { declared known.now ≡ declarations decls.now }
    ensures { IfOk result (λ marks. (i : ℕ) → marked marks.items i ≡ cycles.needs_itself (declared known.now) i) }
{
    let flags = first_flags(alloc, known.list)?;
    let mut edges = hub_edges(alloc, &flags)?;
    add_all_needed(alloc, known, &mut edges)?;
    let marks = cycles_by_hubs(alloc, &flags, &edges)?;
    Ok(marks)
}

/// Whether the node is marked.
pub fn is_marked(marks: &[bool], i: usize) -> bool
    ensures { result ≡ marked marks.now i }
{
    match marks.get(i) {
        Some(mark) => *mark,
        None => false,
    }
}

/// What contains what among the declarations of a unit, and what needs what, which contracts see as the unit. Declarations are told by
/// their places.
pub struct DeclaredGraph {
    of: SeenUnit,
    types: Places,
    containing: Vec<bool>,
    leading: Vec<bool>,
    needing: Vec<bool>,
}

// By hand, so that a drop is one call: a derived one is written out wherever a `?` may need it.
impl Drop for DeclaredGraph {
    fn drop(self) {
        let DeclaredGraph {
            of: _,
            types: _,
            containing: _,
            leading: _,
            needing: _,
        } = self;
    }
}

impl Model for DeclaredGraph {
    ghost use Rattle.st_tree.specs.declared.unit.Unit.{Unit};

    ghost Value = { Unit };

    ghost use Rattle.st_tree.specs.contracts.unit.Unit as unit_type;

    ghost coded = { unit_type.the_row.coded };

    ghost use Rattle.st_unit_rules.specs.declared_names.Declarations.{declarations};
    ghost use Rattle.declared_graph.specs.Private.Marks.{AreMarks};

    ghost view = { λ t. t.of.value };

    ghost invariant = { λ t. AreMarks (declarations t.of.value.decls) t.types t.containing.items t.leading.items t.needing.items };
}

impl DeclaredGraph {
    /// The graph of a unit.
    pub fn build(alloc: Global, unit: &Unit) -> Result<DeclaredGraph, NoMemory>
        ensures { IfOk result (λ graph. graph ≡ unit.now) }
    {
        let decls = unit.decls.as_slice();
        let list = list_declarations(alloc, decls)?;
        let known = know(alloc, &list)?;
        let edges = contained_edges(alloc, &known)?;
        let containing = containing(alloc, &known, &edges)?;
        let leading = leading(alloc, &known, &edges)?;
        let needing = needing(alloc, &known, decls)?;
        Ok(DeclaredGraph {
            of: SeenUnit::of(unit),
            types: known.types,
            containing,
            leading,
            needing,
        })
    }

    /// Whether the declaration at the place contains itself.
    pub fn contains_itself(&self, place: usize) -> bool
        ensures { result ≡ cycles.contains_itself (declarations self.now.decls) place }
    {
        is_marked(&self.containing, place)
    }

    /// Whether the alias or constant at the place needs itself.
    pub fn needs_itself(&self, place: usize) -> bool
        ensures { result ≡ cycles.needs_itself (declarations self.now.decls) place }
    {
        is_marked(&self.needing, place)
    }

    /// E06 at the line, where the declaration at the place contains itself or needs itself.
    #[tactic(auto, using(crate::proofs::GraphLaws::cycle_joined))]
    pub fn cycle_fault(&self, line: u32, place: usize) -> Option<(Code, u32)>
        ensures { result ≡ least (cycles.cycle_faults (declarations self.now.decls) line place) }
    {
        let contains = when(self.contains_itself(place), Code::E06, line);
        let needs = when(self.needs_itself(place), Code::E06, line);
        earlier(contains, needs)
    }

    /// Whether the declaration at the place contains itself or leads to one that does.
    pub fn leads_to_cycle(&self, place: usize) -> bool
        ensures { result ≡ cycles.leads_to_cycle (declarations self.now.decls) place }
    {
        is_marked(&self.leading, place)
    }

    /// The place of the first type of the name.
    pub fn type_place(&self, name: &Text) -> Option<usize>
        ensures { result ≡ cycles.type_place (declarations self.now.decls) name.now }
    {
        place_of(&self.types, name)
    }
}
