//! Places of nodes, by searches with a stack of their own. Nothing is said of them here: they are checked.

use crate::places::Node;
use graph_reach::{Edge, Threads, left_order, turns};
use plc_text::NoMemory;
use std::alloc::Global;

const NONE: usize = usize::MAX;

fn place_of(places: &[Node], i: usize) -> Node {
    match places.get(i) {
        Some(place) => *place,
        None => Node {
            group: 0,
            root: NONE,
            ahead: NONE,
            ahead_steps: 0,
            behind: NONE,
            behind_steps: 0,
        },
    }
}

/// Groups, and the edges to their roots: from the last node that was left, against the edges.
fn groups(
    alloc: Global,
    count: usize,
    edges: &[Edge],
    order: &[usize],
) -> Result<Vec<Node>, NoMemory> {
    let mut threads = Threads::new(alloc, count, edges, false)?;
    let none = Node {
        group: 0,
        root: NONE,
        ahead: NONE,
        ahead_steps: 0,
        behind: NONE,
        behind_steps: 0,
    };
    let mut places: Vec<Node> = vec![in alloc; none; count]?;
    let mut stack: Vec<usize> = Vec::new(alloc);
    let mut left = order.len();
    for _ in 0..turns(count, edges) {
        match stack.pop() {
            None => {
                if left == 0 || left > order.len() {
                    break;
                }
                left -= 1;
                let root = order[left];
                if root < places.len() && places[root].root == NONE {
                    places[root] = Node {
                        group: left,
                        root,
                        ahead: NONE,
                        ahead_steps: 0,
                        behind: NONE,
                        behind_steps: 0,
                    };
                    stack.push(root)?;
                }
            }
            Some(top) => {
                if let Some(k) = threads.take(top) {
                    stack.push(top)?;
                    if k < edges.len() {
                        let from = edges[k].from;
                        let near = place_of(&places, top);
                        if from < places.len() && places[from].root == NONE {
                            places[from] = Node {
                                group: near.group,
                                root: near.root,
                                ahead: k,
                                ahead_steps: near.ahead_steps.saturating_add(1),
                                behind: NONE,
                                behind_steps: 0,
                            };
                            stack.push(from)?;
                        }
                    }
                }
            }
        }
    }
    Ok(places)
}

/// The places of the nodes.
pub fn places(alloc: Global, count: usize, edges: &[Edge]) -> Result<Vec<Node>, NoMemory> {
    let order = left_order(alloc, count, edges)?;
    let mut places = groups(alloc, count, edges, &order)?;
    let mut threads = Threads::new(alloc, count, edges, true)?;
    let mut stack: Vec<usize> = Vec::new(alloc);
    let mut root: usize = 0;
    for _ in 0..turns(count, edges) {
        match stack.pop() {
            None => {
                if root >= places.len() {
                    break;
                }
                if places[root].root == root {
                    stack.push(root)?;
                }
                root += 1;
            }
            Some(top) => {
                if let Some(k) = threads.take(top) {
                    stack.push(top)?;
                    if k < edges.len() {
                        let to = edges[k].to;
                        let near = place_of(&places, top);
                        if to < places.len()
                            && places[to].root == near.root
                            && places[to].behind == NONE
                            && to != near.root
                        {
                            let was = places[to];
                            places[to] = Node {
                                group: was.group,
                                root: was.root,
                                ahead: was.ahead,
                                ahead_steps: was.ahead_steps,
                                behind: k,
                                behind_steps: near.behind_steps.saturating_add(1),
                            };
                            stack.push(to)?;
                        }
                    }
                }
            }
        }
    }
    Ok(places)
}

/// The edges in an order in which what they lead to comes first.
pub fn edge_order(alloc: Global, count: usize, edges: &[Edge]) -> Result<Vec<usize>, NoMemory> {
    let nodes = left_order(alloc, count, edges)?;
    let mut threads = Threads::new(alloc, count, edges, true)?;
    let mut order: Vec<usize> = Vec::new(alloc);
    let mut at: usize = 0;
    for _ in 0..turns(count, edges) {
        if at >= nodes.len() {
            break;
        }
        match threads.take(nodes[at]) {
            Some(k) => order.push(k)?,
            None => at += 1,
        }
    }
    Ok(order)
}
