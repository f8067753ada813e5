//! The places of the nodes, as a hint says them, and the test that they are right.

ghost use Rattle.std.specs.Prelude.{◌≡◌, true, ◌+◌, ◌≤◌, length};
ghost use Rattle.std.specs.List.{list_all};
ghost use Rattle.graph_cycles.specs.Private.Places.{falls, ahead, behind, rooted, all_rooted, AreRight};

use graph_reach::Edge;

/// Where a node stands: its group, whose nodes lead to each other, and the edges to and from the group's root.
#[derive(Clone, Copy)]
pub struct Node {
    pub group: usize,
    pub root: usize,
    pub ahead: usize,
    pub ahead_steps: usize,
    pub behind: usize,
    pub behind_steps: usize,
}

/// Whether an edge leads into the same group or one of a lower number.
fn falls(places: &[Node], edge: Edge) -> bool
    ensures { result ≡ falls places.now edge }
{
    match (places.get(edge.from), places.get(edge.to)) {
        (Some(p), Some(q)) => q.group < p.group || q.group == p.group && q.root == p.root,
        _ => false,
    }
}

/// Whether the edge ahead leads from the node to one of its group that is nearer to the root.
fn ahead(edges: &[Edge], places: &[Node], i: usize, p: Node) -> bool
    ensures { result ≡ ahead edges.now places.now i p }
{
    match edges.get(p.ahead) {
        Some(edge) => match places.get(edge.to) {
            Some(q) => edge.from == i && q.root == p.root && q.ahead_steps < p.ahead_steps,
            None => false,
        },
        None => false,
    }
}

fn behind(edges: &[Edge], places: &[Node], i: usize, p: Node) -> bool
    ensures { result ≡ behind edges.now places.now i p }
{
    match edges.get(p.behind) {
        Some(edge) => match places.get(edge.from) {
            Some(q) => edge.to == i && q.root == p.root && q.behind_steps < p.behind_steps,
            None => false,
        },
        None => false,
    }
}

fn rooted(edges: &[Edge], places: &[Node], i: usize, p: Node) -> bool
    ensures { result ≡ rooted edges.now places.now i p }
{
    i == p.root || ahead(edges, places, i, p) && behind(edges, places, i, p)
}

fn all_fall(edges: &[Edge], places: &[Node]) -> bool
    ensures { result ≡ list_all (falls places.now) edges.now }
{
    for edge in edges {
        if !falls(places, *edge) {
            return false;
        }
    }
    true
}

fn all_rooted(edges: &[Edge], places: &[Node]) -> bool
    ensures { result ≡ all_rooted edges.now places.now 0 places.now }
{
    for (i, p) in places.iter().enumerate() {
        if !rooted(edges, places, i, *p) {
            return false;
        }
    }
    true
}

/// Whether the hint tells the groups: each edge falls or stays within a group, and each group hangs together.
pub fn are_right(edges: &[Edge], places: &[Node]) -> bool
    ensures { result ≡ true → AreRight edges.now places.now }
{
    all_fall(edges, places) && all_rooted(edges, places)
}
