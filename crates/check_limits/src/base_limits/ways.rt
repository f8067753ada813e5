//! Which nodes of a graph have a way of more than 64 steps that meets no cycle.

ghost use Rattle.std.specs.Prelude.{◌≡◌, ◌<◌, ℕ, suc, List, length, IfOk};
ghost use Rattle.std.specs.List.{list_any};
ghost use Rattle.st_unit_rules.specs.Limits.{most_steps, has_way};
ghost use Rattle.graph_cycles.specs.Graph.{AreEdgesOf, AreWithin, marked};
ghost use Rattle.check_limits.specs.base_limits.Private.Ways.{goes_on, leads_on};

use graph_cycles::{Edge, cycle_nodes};
use plc_text::NoMemory;
use std::alloc::Global;

/// More steps than may lead up.
const STEPS: u32 = 65;

/// Whether the node is marked.
pub fn is_marked(marks: &[bool], node: usize) -> bool
    ensures { result ≡ marked marks.now node }
{
    match marks.get(node) {
        Some(mark) => *mark,
        None => false,
    }
}

/// Whether the node is marked and lies on no cycle.
fn is_way(marks: &[bool], cycles: &[bool], node: usize) -> bool
    ensures { result ≡ goes_on marks.now cycles.now node }
{
    !is_marked(cycles, node) && is_marked(marks, node)
}

/// The nodes from which an edge leads to a marked one that lies on no cycle.
fn one_step_more(
    alloc: Global,
    marks: &[bool],
    cycles: &[bool],
    edges: &[Edge],
) -> Result<Vec<bool>, NoMemory>
    requires { AreWithin (length marks.now) edges.now }
    ensures long { IfOk result (λ next. length next.items ≡ length marks.now) }
    ensures next { IfOk result (λ next. (i : ℕ) → marked next.items i ≡ list_any (leads_on (goes_on marks.now cycles.now) i) edges.now) }
{
    let mut next: Vec<bool> = vec![in alloc; false; marks.len()]?;
    let mut left = edges;
    'edges: while let Some((edge, behind)) = left.split_first() {
        if is_way(marks, cycles, edge.to) {
            next[edge.from] = true;
        }
        left = behind;
    }
    Ok(next)
}

/// The nodes, of so many, from which a way of 65 steps leads that meets no cycle.
pub fn high_nodes(alloc: Global, count: usize, edges: &[Edge]) -> Result<Vec<bool>, NoMemory>
    requires { AreWithin count edges.now }
    ensures { IfOk result (λ marks. (ahead : ℕ → List ℕ) → AreEdgesOf edges.now ahead → (i : ℕ) → marked marks.items i ≡ has_way ahead count (suc most_steps) i) }
{
    let cycles = cycle_nodes(alloc, count, edges)?;
    let mut marks: Vec<bool> = vec![in alloc; true; count]?;
    for _step in 0..STEPS {
        marks = one_step_more(alloc, &marks, &cycles, edges)?;
    }
    Ok(marks)
}
