//! The nodes that lead to goals, by rounds over all edges.

ghost use Rattle.graph_reach.specs.declared.threads.Edge.{Edge};
ghost use Rattle.std.specs.Prelude.{List, ◌≡◌, ◌<◌, ◌≤◌, ℕ, Bool, length, true, false, Some};
ghost use Rattle.graph_cycles.specs.Graph.{HasEdge, marked};
ghost use Rattle.graph_cycles.specs.Private.Ways.{Ends, mark_count, AllEnd, IsClosedBack};
ghost use Rattle.std.specs.List.{slice_get};
ghost use Rattle.std.specs.Bool.{Decides};

use graph_reach::Edge;

fn marked(marks: &[bool], i: usize) -> bool
    ensures { result ≡ marked marks.now i }
{
    match marks.get(i) {
        Some(mark) => *mark,
        None => false,
    }
}

/// Marks where the edge begins, if it leads to what is marked; whether that is new.
#[tactic(auto, using(crate::proofs::SearchLaws::count_set, crate::proofs::BehindLaws::end_set, crate::proofs::BehindLaws::set_grows))]
fn extend(marks: &mut Vec<bool>, edge: Edge) -> bool
    requires { edge.from < length marks.old.items }
    ensures long { length marks.new.items ≡ length marks.old.items }
    ensures sound { (es : List Edge) (goals : List Bool) → HasEdge es edge.from edge.to → AllEnd es goals marks.old.items → AllEnd es goals marks.new.items }
    ensures grows { (i : ℕ) → marked marks.old.items i ≡ true → marked marks.new.items i ≡ true }
    ensures stays { result ≡ false → marks.new.items ≡ marks.old.items }
    ensures closed { result ≡ false → IsClosedBack marks.old.items edge }
    ensures more { result ≡ true → mark_count marks.old.items < mark_count marks.new.items }
{
    if marked(marks, edge.from) {
        return false;
    }
    if marked(marks, edge.to) {
        marks[edge.from] = true;
        true
    } else {
        false
    }
}

fn round(marks: &mut Vec<bool>, edges: &[Edge]) -> bool
    requires { (k : ℕ) (e : Edge) → slice_get edges.now k ≡ Some e → e.from < length marks.old.items }
    ensures long { length marks.new.items ≡ length marks.old.items }
    ensures sound { (goals : List Bool) → AllEnd edges.now goals marks.old.items → AllEnd edges.now goals marks.new.items }
    ensures grows { (i : ℕ) → marked marks.old.items i ≡ true → marked marks.new.items i ≡ true }
    ensures stays { result ≡ false → marks.new.items ≡ marks.old.items }
    ensures closed { result ≡ false → (k : ℕ) (e : Edge) → slice_get edges.now k ≡ Some e → IsClosedBack marks.old.items e }
    ensures more { result ≡ true → mark_count marks.old.items < mark_count marks.new.items }
{
    let mut changed = false;
    for edge in edges {
        if extend(marks, *edge) {
            changed = true;
        }
    }
    changed
}

/// One edge of those there are, if the number is one of theirs.
fn extend_at(marks: &mut Vec<bool>, edges: &[Edge], k: usize)
    requires { (k : ℕ) (e : Edge) → slice_get edges.now k ≡ Some e → e.from < length marks.old.items }
    ensures long { length marks.new.items ≡ length marks.old.items }
    ensures sound { (goals : List Bool) → AllEnd edges.now goals marks.old.items → AllEnd edges.now goals marks.new.items }
    ensures grows { (i : ℕ) → marked marks.old.items i ≡ true → marked marks.new.items i ≡ true }
{
    if k < edges.len() {
        let _ = extend(marks, edges[k]);
    }
}

/// The edges in the order of a hint, once.
fn ordered(marks: &mut Vec<bool>, edges: &[Edge], order: &[usize])
    requires { (k : ℕ) (e : Edge) → slice_get edges.now k ≡ Some e → e.from < length marks.old.items }
    ensures long { length marks.new.items ≡ length marks.old.items }
    ensures sound { (goals : List Bool) → AllEnd edges.now goals marks.old.items → AllEnd edges.now goals marks.new.items }
    ensures grows { (i : ℕ) → marked marks.old.items i ≡ true → marked marks.new.items i ≡ true }
{
    for k in order {
        extend_at(marks, edges, *k);
    }
}

/// The goals, and the nodes that lead to one.
#[tactic(auto, using(crate::proofs::SearchLaws::count_le))]
pub fn behind(edges: &[Edge], order: &[usize], goals: Vec<bool>) -> Vec<bool>
    requires { (k : ℕ) (e : Edge) → slice_get edges.now k ≡ Some e → e.from < length goals.items }
    ensures long { length result.items ≡ length goals.items }
    ensures ends { (i : ℕ) → Decides (marked result.items i) (Ends edges.now goals.items i) }
{
    let mut marks = goals;
    ordered(&mut marks, edges, order);
    'rounds: loop {
        if !round(&mut marks, edges) {
            break;
        }
    }
    marks
}
