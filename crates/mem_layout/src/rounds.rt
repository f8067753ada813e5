//! All structures, classes and programs laid out, in rounds: each lays out what is made of what is laid out.

ghost use Rattle.std.specs.Prelude.{◌≡◌, ◌≢◌, ◌≤◌, ◌<◌, true, false, suc, ℕ, Some, OnOk, IfOk, length, slice_get};
ghost use Rattle.st_values.specs.Program.{Program as PlainProgram};
ghost use Rattle.st_values.specs.Shape.{Shape, shape_within};
ghost use Rattle.st_values.specs.View.{program_of};
ghost use Rattle.mem_layout.specs.Layout.{IsSmall};
ghost use Rattle.mem_layout.specs.Private.Table.{AreTables, Reach, list_of, named};
ghost use Rattle.mem_layout.specs.Private.Rounds as rounds;
ghost use Rattle.mem_layout.specs.Private.Rounds.{AreVariables, Stays, Has, with_entry};

use crate::entries::laid_out;
use crate::sizes::{Entry, Tables, list};
use plc_text::{Items, NoMemory};
use program_tables::{Variable, members_of};
use st_tree::Program;
use std::alloc::Global;

/// Steps of containment that types may have, and one more.
const ROUNDS: u32 = 65;

fn put(tables: &mut Tables, class: bool, k: usize, entry: Option<Entry>)
    requires { k < length (list_of tables.old class) }
    ensures { tables.new ≡ with_entry tables.old class k entry }
{
    if class {
        tables.classes.set(k, entry);
    } else {
        tables.structures.set(k, entry);
    }
}

/// Whether the k-th is laid out.
fn is_laid_out(tables: &Tables, class: bool, k: usize) -> bool
    ensures { result ≡ rounds.is_laid_out (slice_get (list_of tables.now class) k) }
{
    match list(tables, class).get(k) {
        Some(entry) => entry.is_some(),
        None => false,
    }
}

/// Lays out the k-th, if it is not laid out and can be.
fn fill(
    alloc: Global,
    tables: &mut Tables,
    class: bool,
    lists: &[Items<Variable<'_>>],
    k: usize,
) -> Result<(), NoMemory>
    requires room { k < length (list_of tables.old class) }
    requires there { k < length lists.now }
    ensures stays { OnOk result (Stays tables.old tables.new) }
    ensures sound { OnOk result ((p : PlainProgram) → AreVariables p class lists.now → AreTables p tables.old → AreTables p tables.new) }
    ensures complete { OnOk result ((p : PlainProgram) (n : ℕ) (sh : Shape) → AreVariables p class lists.now → AreTables p tables.old → Reach p n tables.old → shape_within p (suc n) (named class k) ≡ Some sh → IsSmall sh → Has tables.new class k) }
{
    if is_laid_out(tables, class, k) {
        return Ok(());
    }
    let entry = laid_out(alloc, tables, class, lists[k].as_slice())?;
    put(tables, class, k, entry);
    Ok(())
}

/// Lays out what can be by what is: the classes and programs, or the structures.
fn round(
    alloc: Global,
    tables: &mut Tables,
    class: bool,
    lists: &[Items<Variable<'_>>],
) -> Result<(), NoMemory>
    requires { length lists.now ≤ length (list_of tables.old class) }
    ensures stays { OnOk result (Stays tables.old tables.new) }
    ensures sound { OnOk result ((p : PlainProgram) → AreVariables p class lists.now → AreTables p tables.old → AreTables p tables.new) }
    ensures complete { OnOk result ((p : PlainProgram) (n k : ℕ) (sh : Shape) → AreVariables p class lists.now → AreTables p tables.old → Reach p n tables.old → shape_within p (suc n) (named class k) ≡ Some sh → IsSmall sh → Has tables.new class k) }
{
    for k in 0..lists.len() {
        fill(alloc, tables, class, lists, k)?;
    }
    Ok(())
}

/// A table in which nothing is laid out yet.
fn empty(alloc: Global, n: usize) -> Result<Items<Option<Entry>>, NoMemory>
    ensures none { IfOk result (λ all. (k : ℕ) (e : Entry) → slice_get all k ≢ Some (Some e)) }
    ensures long { IfOk result (λ all. length all ≡ n) }
{
    let mut all = Items::new(alloc);
    for _k in 0..n {
        all.push(None)?;
    }
    Ok(all)
}

/// One round over all.
fn rounds(
    alloc: Global,
    tables: &mut Tables,
    structures: &[Items<Variable<'_>>],
    classes: &[Items<Variable<'_>>],
) -> Result<(), NoMemory>
    requires structures { length structures.now ≤ length tables.old.structures }
    requires classes { length classes.now ≤ length tables.old.classes }
    ensures stays { OnOk result (Stays tables.old tables.new) }
    ensures sound { OnOk result ((p : PlainProgram) → AreVariables p false structures.now → AreVariables p true classes.now → AreTables p tables.old → AreTables p tables.new) }
    ensures complete { OnOk result ((p : PlainProgram) (n : ℕ) → AreVariables p false structures.now → AreVariables p true classes.now → AreTables p tables.old → Reach p n tables.old → Reach p (suc n) tables.new) }
{
    round(alloc, tables, false, structures)?;
    round(alloc, tables, true, classes)?;
    Ok(())
}

/// The tables of a program: what has a shape, and a small one, is laid out.
pub fn tables_of(alloc: Global, program: &Program) -> Result<Tables, NoMemory>
    ensures sound { IfOk result (λ t. AreTables (program_of program.now) t) }
    ensures complete { IfOk result (λ t. Reach (program_of program.now) 65 t) }
{
    let members = members_of(alloc, program)?;
    let mut tables = Tables {
        structures: empty(alloc, members.structures.len())?,
        classes: empty(alloc, members.classes.len())?,
    };
    for depth in 0..ROUNDS {
        rounds(
            alloc,
            &mut tables,
            members.structures.as_slice(),
            members.classes.as_slice(),
        )?;
    }
    Ok(tables)
}
