//! Edges from one node.

ghost use Rattle.std.specs.Prelude.{◌≡◌, ◌++◌, OnOk};
ghost use Rattle.declared_graph.specs.Private.Edges.{edges_to, told};

use graph_cycles::Edge;
use plc_text::NoMemory;

/// Adds an edge to the node, where there is one.
pub fn add_edge(edges: &mut Vec<Edge>, from: usize, to: Option<usize>) -> Result<(), NoMemory>
    ensures { OnOk result (edges.new.items ≡ edges.old.items ++ edges_to from (told to)) }
{
    if let Some(to) = to {
        edges.push(Edge { from, to })?;
    }
    Ok(())
}
