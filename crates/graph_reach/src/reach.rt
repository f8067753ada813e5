//! What each node of a graph leads to, in any number of steps.

ghost use Rattle.std.specs.Prelude.{◌≡◌, [], ◌||◌, ◌&&◌, ◌<◌, ◌≤◌, ◌*◌, ℕ, List, true, false, nat_eq, nat_lt, length, get_or, if◌then◌else◌, IfOk};
ghost use Rattle.std.specs.List.{slice_get};
ghost use Rattle.st_rules.specs.Chains.{is_among};
ghost use Rattle.graph_reach.specs.Bits.{has_bit};
ghost use Rattle.graph_reach.specs.Private.Joins.{Joins};
ghost use Rattle.graph_reach.specs.Reach.{ahead_in, reaches, AreEdges, AreReached};
ghost use Rattle.graph_reach.specs.Private.Rounds.{AreEven, AreSound, Grows, GoesOn};

use crate::bits::Row;
use crate::order::{Step, order};
use plc_text::{Items, NoMemory};
use std::alloc::Global;
use std::mem;

/// Sets in a row what the row of a node has, if there is one; whether that is new.
fn join_from(row: &mut Row, rows: &[Row], node: usize) -> bool
    requires { length (get_or rows.now node []) ≤ length row.old }
    ensures joins { Joins row.old (get_or rows.now node []) row.new }
    ensures long { length row.new ≡ length row.old }
    ensures still { result ≡ false → row.new ≡ row.old }
{
    match rows.get(node) {
        Some(from) => row.join(from),
        None => false,
    }
}

/// Sets in the row of a node what the row of another has; whether that is new.
fn join_rows(alloc: Global, rows: &mut Vec<Row>, node: usize, other: usize) -> bool
    requires within { node < length rows.old.items }
    requires even { AreEven rows.old.items }
    ensures joins { (i j : ℕ) → reaches rows.new.items i j ≡ (reaches rows.old.items i j || (nat_eq i node && reaches rows.old.items other j)) }
    ensures many { length rows.new.items ≡ length rows.old.items }
    ensures even { AreEven rows.new.items }
    ensures still { result ≡ false → rows.new.items ≡ rows.old.items }
{
    let mut row = mem::replace(&mut rows[node], Row::none(alloc));
    let changed = join_from(&mut row, rows, other);
    rows[node] = row;
    changed
}

/// Joins to the row of a node the rows of all that its edges lead to; whether that is new.
fn join_ahead(alloc: Global, rows: &mut Vec<Row>, node: usize, ahead: &[u32]) -> bool
    requires within { node < length rows.old.items }
    requires even { AreEven rows.old.items }
    ensures many { length rows.new.items ≡ length rows.old.items }
    ensures even { AreEven rows.new.items }
    ensures grows { Grows rows.old.items rows.new.items }
    ensures next { (k j : ℕ) → is_among k ahead.now ≡ true → reaches rows.old.items k j ≡ true → reaches rows.new.items node j ≡ true }
    ensures sound { (lists : List (List ℕ)) → ((k : ℕ) → is_among k ahead.now ≡ true → is_among k (ahead_in lists node) ≡ true) → AreSound lists rows.old.items → AreSound lists rows.new.items }
    ensures still { result ≡ false → rows.new.items ≡ rows.old.items }
{
    let mut changed = false;
    for other in ahead {
        changed |= join_rows(alloc, rows, node, *other as usize);
    }
    changed
}

/// Joins along every edge; whether something is new.
fn round(alloc: Global, rows: &mut Vec<Row>, lists: &[Items<u32>]) -> bool
    requires many { length rows.old.items ≡ length lists.now }
    requires even { AreEven rows.old.items }
    ensures many { length rows.new.items ≡ length lists.now }
    ensures even { AreEven rows.new.items }
    ensures grows { Grows rows.old.items rows.new.items }
    ensures next { GoesOn lists.now rows.old.items rows.new.items }
    ensures sound { AreSound lists.now rows.old.items → AreSound lists.now rows.new.items }
    ensures still { result ≡ false → rows.new.items ≡ rows.old.items }
{
    let mut changed = false;
    for (node, ahead) in lists.iter().enumerate() {
        changed |= join_ahead(alloc, rows, node, ahead.as_slice());
    }
    changed
}

/// Joins along an edge, if there is such an edge.
fn follow(alloc: Global, rows: &mut Vec<Row>, lists: &[Items<u32>], step: Step)
    requires many { length rows.old.items ≡ length lists.now }
    requires even { AreEven rows.old.items }
    ensures many { length rows.new.items ≡ length lists.now }
    ensures even { AreEven rows.new.items }
    ensures grows { Grows rows.old.items rows.new.items }
    ensures sound { AreSound lists.now rows.old.items → AreSound lists.now rows.new.items }
{
    if step.node < lists.len() {
        let ahead = lists[step.node].as_slice();
        if step.place < ahead.len() {
            join_rows(alloc, rows, step.node, ahead[step.place] as usize);
        }
    }
}

/// The row of a node that reaches itself, if it is one of the first, and nothing else.
fn own_row(alloc: Global, words: usize, node: usize, columns: usize) -> Result<Row, NoMemory>
    requires { columns ≤ 64 * words }
    ensures long { IfOk result (λ row. length row ≡ words) }
    ensures bits { IfOk result (λ row. (j : ℕ) → has_bit row j ≡ (nat_eq j node && nat_lt node columns)) }
{
    let mut row = Row::clear(alloc, words)?;
    if node < columns {
        row.set(node);
    }
    Ok(row)
}

/// A row for each node, in which the first nodes reach themselves.
fn start(alloc: Global, count: usize, columns: usize) -> Result<Vec<Row>, NoMemory>
    requires { columns ≤ count }
    ensures many { IfOk result (λ rows. length rows.items ≡ count) }
    ensures even { IfOk result (λ rows. AreEven rows.items) }
    ensures own { IfOk result (λ rows. (i : ℕ) → i < columns → reaches rows.items i i ≡ true) }
    ensures only { IfOk result (λ rows. (i j : ℕ) → reaches rows.items i j ≡ true → i ≡ j) }
{
    let words = columns / 64 + 1;
    let mut rows = Vec::new(alloc);
    for node in 0..count {
        let row = own_row(alloc, words, node, columns)?;
        rows.push(row)?;
    }
    Ok(rows)
}

/// Goes in rounds until nothing is new, at most as often as there are nodes.
fn rounds(alloc: Global, rows: &mut Vec<Row>, lists: &[Items<u32>], columns: usize)
    requires many { length rows.old.items ≡ length lists.now }
    requires even { AreEven rows.old.items }
    requires edges { AreEdges lists.now }
    requires own { (i : ℕ) → i < columns → reaches rows.old.items i i ≡ true }
    requires sound { AreSound lists.now rows.old.items }
    ensures reached { AreReached lists.now columns rows.new.items }
    ensures many { length rows.new.items ≡ length lists.now }
{
    for _round in 0..lists.len() {
        if !round(alloc, rows, lists) {
            return;
        }
    }
}

/// What each node leads to among the first nodes. The steps are a hint: edges in an order in which what they lead to is soon
/// complete.
fn reached(
    alloc: Global,
    lists: &[Items<u32>],
    columns: usize,
    hint: &[Step],
) -> Result<Vec<Row>, NoMemory>
    requires columns { columns ≤ length lists.now }
    requires edges { AreEdges lists.now }
    ensures reached { IfOk result (λ rows. AreReached lists.now columns rows.items) }
    ensures many { IfOk result (λ rows. length rows.items ≡ length lists.now) }
{
    let mut rows = start(alloc, lists.len(), columns)?;
    for step in hint {
        follow(alloc, &mut rows, lists, *step);
    }
    rounds(alloc, &mut rows, lists, columns);
    Ok(rows)
}

/// What each node of a graph leads to among the first `columns` nodes, in any number of steps: a row of bits for each node. The nodes
/// are numbers from 0, and the lists tell where the edges of each of them lead.
pub fn find_reached(
    alloc: Global,
    lists: &[Items<u32>],
    columns: usize,
) -> Result<Vec<Row>, NoMemory>
    requires columns { columns ≤ length lists.now }
    requires edges { AreEdges lists.now }
    ensures reached { IfOk result (λ rows. AreReached lists.now columns rows.items) }
    ensures many { IfOk result (λ rows. length rows.items ≡ length lists.now) }
{
    let hint = order(alloc, lists)?;
    reached(alloc, lists, columns, &hint)
}
