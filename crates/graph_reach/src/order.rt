//! Edges in an order in which what they lead to is soon complete: groups of nodes that lead to each other, the last first; in a group
//! all edges, then those that bring to one node what the others have, then those that bring it back. Nothing is said of the order
//! here, since no answer depends on it.

use crate::threads::{Edge, Threads, left_order, turns};
use plc_text::{Items, NoMemory};
use std::alloc::Global;

/// An edge: its node, and its place among the edges of that node.
#[derive(Clone, Copy)]
pub struct Step {
    pub node: usize,
    pub place: usize,
}

const NONE: usize = usize::MAX;

/// The edges of a graph, each with its place among the edges of its node.
#[derive(Drop)]
struct Edges {
    edges: Vec<Edge>,
    places: Vec<usize>,
}

impl Edges {
    fn new(alloc: Global, lists: &[Items<u32>]) -> Result<Edges, NoMemory> {
        let mut edges = Vec::new(alloc);
        let mut places = Vec::new(alloc);
        for (node, ahead) in lists.iter().enumerate() {
            for (place, to) in ahead.as_slice().iter().enumerate() {
                edges.push(Edge {
                    from: node,
                    to: *to as usize,
                })?;
                places.push(place)?;
            }
        }
        Ok(Edges { edges, places })
    }

    fn step(&self, k: usize) -> Option<Step> {
        if k < self.edges.len() && k < self.places.len() {
            Some(Step {
                node: self.edges[k].from,
                place: self.places[k],
            })
        } else {
            None
        }
    }
}

/// Groups of nodes that lead to each other, those first from which others are reached.
#[derive(Drop)]
struct Groups {
    /// The nodes, group after group, each group from its root on.
    nodes: Vec<usize>,
    /// Where each group begins.
    starts: Vec<usize>,
    /// The root of each node's group.
    roots: Vec<usize>,
    /// The edge of each node that leads towards its root.
    ahead: Vec<usize>,
}

impl Groups {
    fn new(alloc: Global, count: usize, edges: &[Edge]) -> Result<Groups, NoMemory> {
        let left_nodes = left_order(alloc, count, edges)?;
        let mut threads = Threads::new(alloc, count, edges, false)?;
        let mut groups = Groups::none(alloc, count)?;
        let many = turns(count, edges);
        groups.find(alloc, edges, &mut threads, &left_nodes, many)?;
        Ok(groups)
    }

    /// No group yet, of so many nodes.
    fn none(alloc: Global, count: usize) -> Result<Groups, NoMemory> {
        Ok(Groups {
            nodes: Vec::new(alloc),
            starts: Vec::new(alloc),
            roots: vec![in alloc; NONE; count]?,
            ahead: vec![in alloc; NONE; count]?,
        })
    }

    /// Finds the groups in so many turns, by a search against the edges from the nodes that were left last.
    fn find(
        &mut self,
        alloc: Global,
        edges: &[Edge],
        threads: &mut Threads,
        left_nodes: &[usize],
        many: usize,
    ) -> Result<(), NoMemory> {
        let mut stack: Vec<usize> = Vec::new(alloc);
        let mut left = left_nodes.len();
        for _ in 0..many {
            match stack.pop() {
                None => {
                    if left == 0 || left > left_nodes.len() {
                        break;
                    }
                    left -= 1;
                    self.begin(&mut stack, left_nodes[left])?;
                }
                Some(top) => {
                    if let Some(k) = threads.take(top) {
                        self.follow(&mut stack, edges, top, k)?;
                    }
                }
            }
        }
        Ok(())
    }

    /// Begins a group at a root that is new.
    fn begin(&mut self, stack: &mut Vec<usize>, root: usize) -> Result<(), NoMemory> {
        if self.is_new(root) {
            self.starts.push(self.nodes.len())?;
            self.add(root, root, NONE)?;
            stack.push(root)?;
        }
        Ok(())
    }

    /// Goes back along an edge of a node to one that is new.
    fn follow(
        &mut self,
        stack: &mut Vec<usize>,
        edges: &[Edge],
        top: usize,
        k: usize,
    ) -> Result<(), NoMemory> {
        stack.push(top)?;
        if k < edges.len() && self.is_new(edges[k].from) {
            let node = edges[k].from;
            let root = self.root(top);
            self.add(node, root, k)?;
            stack.push(node)?;
        }
        Ok(())
    }

    fn is_new(&self, node: usize) -> bool {
        node < self.roots.len() && self.roots[node] == NONE
    }

    fn root(&self, node: usize) -> usize {
        if node < self.roots.len() {
            self.roots[node]
        } else {
            NONE
        }
    }

    fn add(&mut self, node: usize, root: usize, ahead: usize) -> Result<(), NoMemory> {
        if node < self.roots.len() && node < self.ahead.len() {
            self.nodes.push(node)?;
            self.roots[node] = root;
            self.ahead[node] = ahead;
        }
        Ok(())
    }

    /// The edge of a node that leads towards its root.
    fn step_ahead(&self, edges: &Edges, node: usize) -> Option<Step> {
        if node < self.ahead.len() {
            edges.step(self.ahead[node])
        } else {
            None
        }
    }

    /// The nodes of a group, its root first.
    fn group(&self, number: usize) -> &[usize] {
        if number >= self.starts.len() {
            return &[];
        }
        let start = self.starts[number];
        let end = if number < self.starts.len() - 1 {
            self.starts[number + 1]
        } else {
            self.nodes.len()
        };
        if start <= end && end <= self.nodes.len() {
            &self.nodes[start..end]
        } else {
            &[]
        }
    }
}

/// Adds all edges of a node.
fn add_edges(steps: &mut Vec<Step>, lists: &[Items<u32>], node: usize) -> Result<(), NoMemory> {
    if node < lists.len() {
        for place in 0..lists[node].len() {
            steps.push(Step { node, place })?;
        }
    }
    Ok(())
}

/// The edges by which a search from the root of a group finds its nodes, in the order of finding.
fn found_by(
    alloc: Global,
    lists: &[Items<u32>],
    groups: &Groups,
    group: &[usize],
    seen: &mut Vec<bool>,
) -> Result<Vec<Step>, NoMemory> {
    let mut steps = Vec::new(alloc);
    if group.is_empty() {
        return Ok(steps);
    }
    let root = group[0];
    let mut queue: Vec<usize> = Vec::new(alloc);
    queue.push(root)?;
    for at in 0..group.len() {
        if at >= queue.len() {
            break;
        }
        let node = queue[at];
        if node < lists.len() {
            for (place, to) in lists[node].as_slice().iter().enumerate() {
                let to = *to as usize;
                if to != root && groups.root(to) == root && to < seen.len() && !seen[to] {
                    seen[to] = true;
                    steps.push(Step { node, place })?;
                    queue.push(to)?;
                }
            }
        }
    }
    Ok(steps)
}

/// Adds the edges that bring to the root of a group what its other nodes have.
fn add_found(
    alloc: Global,
    steps: &mut Vec<Step>,
    lists: &[Items<u32>],
    groups: &Groups,
    group: &[usize],
    seen: &mut Vec<bool>,
) -> Result<(), NoMemory> {
    let found = found_by(alloc, lists, groups, group, seen)?;
    for step in found.iter().rev() {
        steps.push(*step)?;
    }
    Ok(())
}

/// Adds the edges of a group that lead towards its root.
fn add_ahead(
    steps: &mut Vec<Step>,
    edges: &Edges,
    groups: &Groups,
    group: &[usize],
) -> Result<(), NoMemory> {
    for node in group {
        if let Some(step) = groups.step_ahead(edges, *node) {
            steps.push(step)?;
        }
    }
    Ok(())
}

/// Adds the edges of a group.
fn add_group(
    alloc: Global,
    steps: &mut Vec<Step>,
    lists: &[Items<u32>],
    edges: &Edges,
    groups: &Groups,
    group: &[usize],
    seen: &mut Vec<bool>,
) -> Result<(), NoMemory> {
    for node in group {
        add_edges(steps, lists, *node)?;
    }
    if group.len() > 1 {
        add_found(alloc, steps, lists, groups, group, seen)?;
        add_ahead(steps, edges, groups, group)?;
    }
    Ok(())
}

/// Adds the edges of all groups, those of the last one first.
fn add_groups(
    alloc: Global,
    steps: &mut Vec<Step>,
    lists: &[Items<u32>],
    edges: &Edges,
    groups: &Groups,
) -> Result<(), NoMemory> {
    let mut seen: Vec<bool> = vec![in alloc; false; lists.len()]?;
    for back in 0..groups.starts.len() {
        let group = groups.group(groups.starts.len() - 1 - back);
        add_group(alloc, steps, lists, edges, groups, group, &mut seen)?;
    }
    Ok(())
}

/// The edges in an order in which what they lead to is soon complete.
pub fn order(alloc: Global, lists: &[Items<u32>]) -> Result<Vec<Step>, NoMemory> {
    let edges = Edges::new(alloc, lists)?;
    let groups = Groups::new(alloc, lists.len(), &edges.edges)?;
    let mut steps = Vec::new(alloc);
    add_groups(alloc, &mut steps, lists, &edges, &groups)?;
    Ok(steps)
}
