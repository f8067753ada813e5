//! The nodes on a cycle, from a hint that is checked, and those that lead to one.

ghost use Rattle.std.specs.Prelude.{List, ◌∷◌, ◌||◌, nat_eq, ◌≡◌, ◌<◌, ℕ, length, true, IfOk, Some};
ghost use Rattle.std.specs.List.{list_any, slice_get};
ghost use Rattle.std.specs.Bool.{Decides};
ghost use Rattle.graph_reach.specs.declared.threads.Edge.{Edge as AnEdge};
ghost use Rattle.graph_cycles.specs.Graph.{AreEdgesOf, AreWithin, LiesOnCycle, LeadsToCycle, LeadsToMarked, marked};
ghost use Rattle.graph_cycles.specs.Private.Ways.{IsTurning};
ghost use Rattle.graph_cycles.specs.Private.Places.{stays, stays_from};

use crate::behind::behind;
use crate::hint::{edge_order, places};
use crate::places::{Node, are_right};
use crate::search::searched;
use graph_reach::Edge;
use plc_text::NoMemory;
use std::alloc::Global;

/// Whether the edge stays within a group.
#[tactic(auto, using(crate::proofs::CycleLaws::within))]
fn stays(places: &[Node], edge: Edge) -> bool
    ensures same { result ≡ stays places.now edge }
    ensures within { result ≡ true → edge.from < length places.now }
{
    match (places.get(edge.from), places.get(edge.to)) {
        (Some(p), Some(q)) => q.root == p.root,
        _ => false,
    }
}

#[tactic(auto, using(crate::proofs::CycleLaws::marked_set))]
fn mark(marks: &mut Vec<bool>, i: usize)
    requires { i < length marks.old.items }
    ensures long { length marks.new.items ≡ length marks.old.items }
    ensures marks { (j : ℕ) → marked marks.new.items j ≡ (marked marks.old.items j || nat_eq i j) }
{
    marks[i] = true;
}

/// Marks where the edge begins, if it stays within its group.
fn mark_edge(marks: &mut Vec<bool>, places: &[Node], edge: Edge)
    requires { length marks.old.items ≡ length places.now }
    ensures long { length marks.new.items ≡ length marks.old.items }
    ensures rest { (i : ℕ) (es : List AnEdge) → (marked marks.new.items i || list_any (stays_from places.now i) es) ≡ (marked marks.old.items i || list_any (stays_from places.now i) (edge ∷ es)) }
{
    if stays(places, edge) {
        mark(marks, edge.from);
    }
}

/// Marks each node from which an edge stays within its group.
fn marks(alloc: Global, edges: &[Edge], places: &[Node]) -> Result<Vec<bool>, NoMemory>
    ensures long { IfOk result (λ t. length t.items ≡ length places.now) }
    ensures marks { IfOk result (λ t. (i : ℕ) → marked t.items i ≡ list_any (stays_from places.now i) edges.now) }
{
    let mut marks: Vec<bool> = vec![in alloc; false; places.len()]?;
    for edge in edges {
        mark_edge(&mut marks, places, *edge);
    }
    Ok(marks)
}

/// The nodes that lie on a cycle. The hint only saves time.
fn on_cycles(
    alloc: Global,
    count: usize,
    edges: &[Edge],
    hint: &[Node],
) -> Result<Vec<bool>, NoMemory>
    requires { (k : ℕ) (e : AnEdge) → slice_get edges.now k ≡ Some e → (e.from < count) × (e.to < count) }
    ensures long { IfOk result (λ t. length t.items ≡ count) }
    ensures decides { IfOk result (λ t. (i : ℕ) → Decides (marked t.items i) (IsTurning edges.now i)) }
{
    if hint.len() != count {
        return searched(alloc, count, edges);
    }
    if are_right(edges, hint) {
        marks(alloc, edges, hint)
    } else {
        searched(alloc, count, edges)
    }
}

/// The nodes that lie on a cycle are marked, of so many nodes.
pub fn cycle_nodes(alloc: Global, count: usize, edges: &[Edge]) -> Result<Vec<bool>, NoMemory>
    requires { AreWithin count edges.now }
    ensures long { IfOk result (λ marks. length marks.items ≡ count) }
    ensures cycles { IfOk result (λ marks. (ahead : ℕ → List ℕ) → AreEdgesOf edges.now ahead → (i : ℕ) → Decides (marked marks.items i) (LiesOnCycle ahead i)) }
{
    let hint = places(alloc, count, edges)?;
    let marks = on_cycles(alloc, count, edges, &hint)?;
    Ok(marks)
}

/// The nodes that are goals or lead to one are marked, of so many nodes; the goals are marked too.
pub fn nodes_to(
    alloc: Global,
    count: usize,
    edges: &[Edge],
    goals: Vec<bool>,
) -> Result<Vec<bool>, NoMemory>
    requires within { AreWithin count edges.now }
    requires goals { length goals.items ≡ count }
    ensures long { IfOk result (λ marks. length marks.items ≡ count) }
    ensures leads { IfOk result (λ marks. (ahead : ℕ → List ℕ) → AreEdgesOf edges.now ahead → (i : ℕ) → Decides (marked marks.items i) (LeadsToMarked ahead goals.items i)) }
{
    let order = edge_order(alloc, count, edges)?;
    let marks = behind(edges, &order, goals);
    Ok(marks)
}

/// The nodes that lie on a cycle or lead to one are marked, of so many nodes.
pub fn nodes_to_cycles(alloc: Global, count: usize, edges: &[Edge]) -> Result<Vec<bool>, NoMemory>
    requires { AreWithin count edges.now }
    ensures long { IfOk result (λ marks. length marks.items ≡ count) }
    ensures cycles { IfOk result (λ marks. (ahead : ℕ → List ℕ) → AreEdgesOf edges.now ahead → (i : ℕ) → Decides (marked marks.items i) (LeadsToCycle ahead i)) }
{
    let on_cycle = cycle_nodes(alloc, count, edges)?;
    let marks = nodes_to(alloc, count, edges, on_cycle)?;
    Ok(marks)
}
