//! The nodes of a graph that lie on a cycle, lead to one, or lead to goals, in time linear in the graph.
#![tactic(auto)]

mod behind;
mod cycle;
mod hint;
mod places;
mod search;

pub use cycle::{cycle_nodes, nodes_to, nodes_to_cycles};
pub use graph_reach::Edge;
