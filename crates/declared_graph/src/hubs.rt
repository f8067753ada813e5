//! Nodes that share what they lead to: each leads to a hub, and the hub to what they share. So a graph is linear in its text where
//! many names share one long value.

ghost use Rattle.std.specs.Prelude.{◌≡◌, ◌+◌, ◌++◌, ℕ, List, if◌then◌else◌, length, map, IfOk};
ghost use Rattle.graph_cycles.specs.Graph.{AreWithin, marked};
ghost use Rattle.st_unit_rules.specs.Cycles.{lies_on_cycle};
ghost use Rattle.declared_graph.specs.Private.Edges.{edges_from, out_at};
ghost use Rattle.declared_graph.specs.Private.Shared.{first_nodes, hub_of, hub_outs, IsShared};

use crate::edges::add_edge;
use graph_cycles::{Edge, cycle_nodes};
use plc_text::NoMemory;
use std::alloc::Global;

/// The number of a hub, behind those of as many nodes.
pub fn hub_node(count: usize, hub: usize) -> Result<usize, NoMemory>
    ensures { IfOk result (λ node. node ≡ count + hub) }
{
    match count.checked_add(hub) {
        Some(node) => Ok(node),
        None => Err(NoMemory),
    }
}

fn next_hub(first: bool, node: usize, hub: usize) -> usize
    ensures { result ≡ (if first then node else hub) }
{
    if first { node } else { hub }
}

/// Of each node itself, or the last one before it that is the first of those that share.
fn first_nodes(alloc: Global, flags: &[bool]) -> Result<Vec<usize>, NoMemory>
    ensures { IfOk result (λ nodes. nodes.items ≡ first_nodes 0 0 flags.now) }
{
    let mut nodes = Vec::new(alloc);
    let mut hub = 0;
    for (i, first) in flags.iter().enumerate() {
        hub = next_hub(*first, i, hub);
        nodes.push(hub)?;
    }
    Ok(nodes)
}

fn edges_to_hubs(alloc: Global, count: usize, nodes: &[usize]) -> Result<Vec<Edge>, NoMemory>
    ensures { IfOk result (λ edges. edges.items ≡ edges_from 0 (map (hub_of count) nodes.now)) }
{
    let mut edges = Vec::new(alloc);
    for (i, hub) in nodes.iter().enumerate() {
        add_edge(&mut edges, i, Some(hub_node(count, *hub)?))?;
    }
    Ok(edges)
}

/// The edges from each node to its hub.
pub fn hub_edges(alloc: Global, flags: &[bool]) -> Result<Vec<Edge>, NoMemory>
    ensures { IfOk result (λ edges. edges.items ≡ edges_from 0 (hub_outs flags.now)) }
{
    let nodes = first_nodes(alloc, flags)?;
    edges_to_hubs(alloc, flags.len(), &nodes)
}

/// Which of the nodes lie on a cycle, by the edges to and from their hubs.
pub fn cycles_by_hubs(alloc: Global, flags: &[bool], edges: &[Edge]) -> Result<Vec<bool>, NoMemory>
    requires { AreWithin (length flags.now + length flags.now) edges.now }
    ensures { IfOk result (λ marks. (outs gives : List (List ℕ)) → IsShared flags.now outs gives → edges.now ≡ edges_from 0 (hub_outs flags.now ++ outs)
        → (i : ℕ) → marked marks.items i ≡ lies_on_cycle (out_at gives) (length flags.now) i) }
{
    let nodes = hub_node(flags.len(), flags.len())?;
    let mut marks = cycle_nodes(alloc, nodes, edges)?;
    marks.truncate(flags.len());
    Ok(marks)
}
