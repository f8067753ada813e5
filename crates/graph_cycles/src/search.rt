//! Where a node leads to, by rounds over all edges.

ghost use Rattle.graph_reach.specs.declared.threads.Edge.{Edge};
ghost use Rattle.std.specs.Prelude.{List, nat_eq, ◌||◌, ◌≡◌, ◌<◌, ◌≤◌, ℕ, length, true, false, IfOk, Option, Some, None};
ghost use Rattle.graph_cycles.specs.Graph.{HasEdge, marked};
ghost use Rattle.graph_cycles.specs.Private.Ways.{IsTurning, mark_count, Sound, IsClosedAt};
ghost use Rattle.std.specs.List.{slice_get};
ghost use Rattle.std.specs.Bool.{Decides};

use graph_reach::Edge;
use plc_text::NoMemory;
use std::alloc::Global;

fn marked(marks: &[bool], i: usize) -> bool
    ensures { result ≡ marked marks.now i }
{
    match marks.get(i) {
        Some(mark) => *mark,
        None => false,
    }
}

fn leaves(marks: &[bool], root: usize, edge: Edge) -> bool
    ensures { result ≡ (nat_eq edge.from root || marked marks.now edge.from) }
{
    edge.from == root || marked(marks, edge.from)
}

/// Marks where the edge leads, if it comes from the root or from what is marked; whether that is new.
#[tactic(auto, using(crate::proofs::SearchLaws::count_set, crate::proofs::SearchLaws::sound_set))]
fn extend(marks: &mut Vec<bool>, root: usize, edge: Edge) -> bool
    requires { edge.to < length marks.old.items }
    ensures long { length marks.new.items ≡ length marks.old.items }
    ensures sound { (es : List Edge) → HasEdge es edge.from edge.to → Sound es root marks.old.items → Sound es root marks.new.items }
    ensures stays { result ≡ false → marks.new.items ≡ marks.old.items }
    ensures closed { result ≡ false → IsClosedAt root marks.old.items edge }
    ensures more { result ≡ true → mark_count marks.old.items < mark_count marks.new.items }
{
    if marked(marks, edge.to) {
        return false;
    }
    if leaves(marks, root, edge) {
        marks[edge.to] = true;
        true
    } else {
        false
    }
}

fn round(marks: &mut Vec<bool>, root: usize, edges: &[Edge]) -> bool
    requires { (k : ℕ) (e : Edge) → slice_get edges.now k ≡ Some e → e.to < length marks.old.items }
    ensures long { length marks.new.items ≡ length marks.old.items }
    ensures sound { Sound edges.now root marks.old.items → Sound edges.now root marks.new.items }
    ensures stays { result ≡ false → marks.new.items ≡ marks.old.items }
    ensures closed { result ≡ false → (k : ℕ) (e : Edge) → slice_get edges.now k ≡ Some e → IsClosedAt root marks.old.items e }
    ensures more { result ≡ true → mark_count marks.old.items < mark_count marks.new.items }
{
    let mut changed = false;
    for edge in edges {
        if extend(marks, root, *edge) {
            changed = true;
        }
    }
    changed
}

/// Whether the node leads to itself.
#[tactic(auto, using(crate::proofs::SearchLaws::count_le, crate::proofs::SearchLaws::none_sound))]
fn returns(alloc: Global, count: usize, edges: &[Edge], root: usize) -> Result<bool, NoMemory>
    requires { (k : ℕ) (e : Edge) → slice_get edges.now k ≡ Some e → (e.from < count) × (e.to < count) }
    ensures { IfOk result (λ b. Decides b (IsTurning edges.now root)) }
{
    let mut marks: Vec<bool> = vec![in alloc; false; count]?;
    'rounds: loop {
        if !round(&mut marks, root, edges) {
            break;
        }
    }
    Ok(marked(&marks, root))
}

/// The nodes that lie on a cycle, by a search from each.
pub fn searched(alloc: Global, count: usize, edges: &[Edge]) -> Result<Vec<bool>, NoMemory>
    requires { (k : ℕ) (e : Edge) → slice_get edges.now k ≡ Some e → (e.from < count) × (e.to < count) }
    ensures long { IfOk result (λ t. length t.items ≡ count) }
    ensures decides { IfOk result (λ t. (i : ℕ) → Decides (marked t.items i) (IsTurning edges.now i)) }
{
    let mut found = Vec::new(alloc);
    for i in 0..count {
        found.push(returns(alloc, count, edges, i)?)?;
    }
    Ok(found)
}
