//! Edges one after the other at each node, and the nodes in the order in which a search leaves them. Nothing is said of either here,
//! since no answer depends on them.

use plc_text::NoMemory;
use std::alloc::Global;

const NONE: usize = usize::MAX;

/// An edge between nodes, which are numbers from 0.
#[derive(Clone, Copy)]
pub struct Edge {
    pub from: usize,
    pub to: usize,
}

/// The edges at each node: the first one, and behind each edge the next.
#[derive(Drop)]
pub struct Threads {
    first: Vec<usize>,
    next: Vec<usize>,
}

impl Threads {
    /// The edges that leave each of so many nodes, or those that reach it.
    pub fn new(
        alloc: Global,
        count: usize,
        edges: &[Edge],
        leaving: bool,
    ) -> Result<Threads, NoMemory> {
        let mut first: Vec<usize> = vec![in alloc; NONE; count]?;
        let mut next: Vec<usize> = vec![in alloc; NONE; edges.len()]?;
        for (k, edge) in edges.iter().enumerate() {
            let node = if leaving { edge.from } else { edge.to };
            if node < first.len() && k < next.len() {
                next[k] = first[node];
                first[node] = k;
            }
        }
        Ok(Threads { first, next })
    }

    /// The next edge at the node, which is then done with.
    pub fn take(&mut self, node: usize) -> Option<usize> {
        if node >= self.first.len() {
            return None;
        }
        let k = self.first[node];
        if k >= self.next.len() {
            return None;
        }
        self.first[node] = self.next[k];
        Some(k)
    }
}

/// So many turns are enough for a search over so many nodes: each is put on the stack and left once, and each edge is taken once.
pub fn turns(count: usize, edges: &[Edge]) -> usize {
    count.saturating_add(count).saturating_add(edges.len())
}

/// Puts a node on the stack that was not seen yet.
fn visit(stack: &mut Vec<usize>, seen: &mut Vec<bool>, node: usize) -> Result<(), NoMemory> {
    if node < seen.len() && !seen[node] {
        seen[node] = true;
        stack.push(node)?;
    }
    Ok(())
}

/// Adds the nodes in the order in which a search leaves them, in so many turns.
fn leave(
    alloc: Global,
    left: &mut Vec<usize>,
    seen: &mut Vec<bool>,
    threads: &mut Threads,
    edges: &[Edge],
    many: usize,
) -> Result<(), NoMemory> {
    let mut stack: Vec<usize> = Vec::new(alloc);
    let mut root: usize = 0;
    for _ in 0..many {
        match stack.pop() {
            None => {
                if root >= seen.len() {
                    break;
                }
                visit(&mut stack, seen, root)?;
                root += 1;
            }
            Some(top) => match threads.take(top) {
                None => left.push(top)?,
                Some(k) => {
                    stack.push(top)?;
                    if k < edges.len() {
                        visit(&mut stack, seen, edges[k].to)?;
                    }
                }
            },
        }
    }
    Ok(())
}

/// The nodes in the order in which a search leaves them, each behind those to which its edges lead, but on cycles.
pub fn left_order(alloc: Global, count: usize, edges: &[Edge]) -> Result<Vec<usize>, NoMemory> {
    let mut threads = Threads::new(alloc, count, edges, true)?;
    let mut seen: Vec<bool> = vec![in alloc; false; count]?;
    let mut left: Vec<usize> = Vec::new(alloc);
    let many = turns(count, edges);
    leave(alloc, &mut left, &mut seen, &mut threads, edges, many)?;
    Ok(left)
}
