//! The chains of all classes.

ghost use Rattle.std.specs.Prelude.{◌≡◌, ◌≤◌, ◌⊎◌, ℕ, Some, None, length, slice_get, replicate, IfOk, OnOk, MatchOption};
ghost use Rattle.st_rules.specs.Classes as bases;
ghost use Rattle.st_rules.specs.Classes.{classes_in};
ghost use Rattle.st_rules.specs.Chains.{is_among};
ghost use Rattle.declared_symbols.specs.class_chains.Cells.{HasChain, AreChains};
ghost use Rattle.declared_symbols.specs.class_chains.Private.Grows.{Grows};
ghost use Rattle.declared_symbols.specs.class_chains.Private.Known.{AreKnown};

use crate::class_chains::cells::{Cell, push_all, push_cell};
use crate::class_chains::chain::chain_of;
use class_tables::ClassTables;
use plc_text::NoMemory;
use st_tree::{Decl, Unit};
use st_types::StType;
use std::alloc::Global;

/// The chains of classes: the cells, and by the number of a class its first cell.
#[derive(Drop)]
pub struct ClassChains {
    pub cells: Vec<Cell>,
    pub firsts: Vec<u32>,
}

/// What is known so far.
#[derive(Drop)]
struct Work {
    cells: Vec<Cell>,
    firsts: Vec<Option<u32>>,
}

fn count_classes(decls: &[Decl<u32>]) -> Result<u32, NoMemory>
    ensures { IfOk result (λ count. count ≡ length (classes_in decls.now)) }
{
    let mut count: u64 = 0;
    for decl in decls {
        if let Decl::Class(_) = decl {
            count += 1;
        }
    }
    match u32::try_from(count) {
        Ok(count) => Ok(count),
        Err(_) => Err(NoMemory),
    }
}

/// The classes, each behind its base but for one on each cycle of bases.
fn downward(alloc: Global, classes: &ClassTables, count: u32) -> Result<Vec<u32>, NoMemory> {
    let mut order = Vec::new(alloc);
    let mut seen: Vec<bool> = vec![in alloc; false; count as usize]?;
    let mut path: Vec<u32> = Vec::new(alloc);
    for first in 0..count {
        let mut next = Some(first);
        for _step in 0..count {
            match next {
                Some(class) if is_new(&seen, class) => {
                    see(&mut seen, class);
                    path.push(class)?;
                    next = classes.base_of(class);
                }
                _ => break,
            }
        }
        for class in path.iter().rev() {
            order.push(*class)?;
        }
        path.clear();
    }
    Ok(order)
}

fn is_new(seen: &[bool], class: u32) -> bool {
    match seen.get(class as usize) {
        Some(is_seen) => !*is_seen,
        None => false,
    }
}

fn see(seen: &mut [bool], class: u32) {
    if (class as usize) < seen.len() {
        seen[class as usize] = true;
    }
}

/// The first cell of a class, if it is known.
fn known(firsts: &[Option<u32>], class: u32) -> Option<u32>
    ensures { MatchOption result (Prim.Unit {0}) (λ i. slice_get firsts.now class ≡ Some (Some i)) }
{
    match firsts.get(class as usize) {
        Some(first) => *first,
        None => None,
    }
}

/// The base of a class and its first cell, if there is one and it is known.
fn known_base(classes: &ClassTables, firsts: &[Option<u32>], class: u32) -> Option<(u32, u32)>
    ensures { MatchOption result (Prim.Unit {0}) (λ x. (bases.base_of (classes_in classes.now.decls) class ≡ Some x.0) × (slice_get firsts.now x.0 ≡ Some (Some x.1))) }
{
    let base = classes.base_of(class)?;
    let first = known(firsts, base)?;
    Some((base, first))
}

/// Whether the class stands above its base.
fn comes_round(classes: &ClassTables, class: u32, base: u32) -> bool
    ensures { result ≡ is_among class (bases.chain (classes_in classes.now.decls) base) }
{
    classes.conforms(base, &StType::Instance(class))
}

/// The first cell of a class behind which its base stands.
fn under_base(
    cells: &mut Vec<Cell>,
    classes: &ClassTables,
    class: u32,
    base: u32,
    first: u32,
) -> Result<u32, NoMemory>
    requires base { bases.base_of (classes_in classes.now.decls) class ≡ Some base }
    requires first { HasChain cells.old.items (classes_in classes.now.decls) base first }
    ensures grows { IfOk result (λ i. Grows cells.old.items cells.new.items) }
    ensures first { IfOk result (λ i. HasChain cells.new.items (classes_in classes.now.decls) class i) }
{
    if comes_round(classes, class, base) {
        return Ok(first);
    }
    let number = push_cell(cells, class, Some(first))?;
    Ok(number)
}

/// The first cell of a class, with cells of its own for its whole chain.
fn walked(
    alloc: Global,
    cells: &mut Vec<Cell>,
    classes: &ClassTables,
    count: u32,
    class: u32,
) -> Result<u32, NoMemory>
    requires { count ≡ length (classes_in classes.now.decls) }
    ensures grows { IfOk result (λ i. Grows cells.old.items cells.new.items) }
    ensures first { IfOk result (λ i. HasChain cells.new.items (classes_in classes.now.decls) class i) }
{
    let chain = chain_of(alloc, classes, count, class)?;
    match push_all(cells, &chain)? {
        Some(first) => Ok(first),
        None => Ok(0),
    }
}

fn next_first(
    alloc: Global,
    work: &mut Work,
    classes: &ClassTables,
    count: u32,
    class: u32,
) -> Result<u32, NoMemory>
    requires count { count ≡ length (classes_in classes.now.decls) }
    requires work { AreKnown work.old.cells.items (classes_in classes.now.decls) work.old.firsts.items }
    ensures grows { IfOk result (λ i. Grows work.old.cells.items work.new.cells.items) }
    ensures firsts { IfOk result (λ i. work.new.firsts.items ≡ work.old.firsts.items) }
    ensures first { IfOk result (λ i. HasChain work.new.cells.items (classes_in classes.now.decls) class i) }
{
    match known_base(classes, &work.firsts, class) {
        Some((base, first)) => {
            let first = under_base(&mut work.cells, classes, class, base, first)?;
            Ok(first)
        }
        None => {
            let first = walked(alloc, &mut work.cells, classes, count, class)?;
            Ok(first)
        }
    }
}

/// The first cell of a class, which is known then.
fn learn(
    alloc: Global,
    work: &mut Work,
    classes: &ClassTables,
    count: u32,
    class: u32,
) -> Result<u32, NoMemory>
    requires count { count ≡ length (classes_in classes.now.decls) }
    requires work { AreKnown work.old.cells.items (classes_in classes.now.decls) work.old.firsts.items }
    ensures grows { IfOk result (λ i. Grows work.old.cells.items work.new.cells.items) }
    ensures work { IfOk result (λ i. AreKnown work.new.cells.items (classes_in classes.now.decls) work.new.firsts.items) }
    ensures first { IfOk result (λ i. HasChain work.new.cells.items (classes_in classes.now.decls) class i) }
{
    if let Some(first) = known(&work.firsts, class) {
        return Ok(first);
    }
    let first = next_first(alloc, work, classes, count, class)?;
    put(&mut work.firsts, class, first);
    Ok(first)
}

/// Keeps the first cell of a class, if there is room.
fn put(firsts: &mut Vec<Option<u32>>, class: u32, first: u32)
    ensures { (c i : ℕ) → slice_get firsts.new.items c ≡ Some (Some i) → ((c ≡ class) × (i ≡ first)) ⊎ (slice_get firsts.old.items c ≡ Some (Some i)) }
{
    if (class as usize) < firsts.len() {
        firsts[class as usize] = Some(first);
    }
}

fn none_known(alloc: Global, count: usize) -> Result<Vec<Option<u32>>, NoMemory>
    ensures { IfOk result (λ firsts. firsts.items ≡ replicate count None) }
{
    Ok(vec![in alloc; None; count]?)
}

/// Learns the chains of classes in this order.
fn learn_all(
    alloc: Global,
    work: &mut Work,
    classes: &ClassTables,
    count: u32,
    order: &[u32],
) -> Result<(), NoMemory>
    requires count { count ≡ length (classes_in classes.now.decls) }
    requires work { AreKnown work.old.cells.items (classes_in classes.now.decls) work.old.firsts.items }
    ensures work { OnOk result (AreKnown work.new.cells.items (classes_in classes.now.decls) work.new.firsts.items) }
{
    for class in order {
        learn(alloc, work, classes, count, *class)?;
    }
    Ok(())
}

/// The first cells of so many classes.
fn firsts_of(
    alloc: Global,
    work: &mut Work,
    classes: &ClassTables,
    count: u32,
    room: u32,
) -> Result<Vec<u32>, NoMemory>
    requires count { count ≡ length (classes_in classes.now.decls) }
    requires work { AreKnown work.old.cells.items (classes_in classes.now.decls) work.old.firsts.items }
    ensures chains { IfOk result (λ firsts. AreChains work.new.cells.items (classes_in classes.now.decls) firsts.items) }
    ensures long { IfOk result (λ firsts. length firsts.items ≡ room) }
{
    let mut firsts = Vec::new(alloc);
    for class in 0..room {
        let first = learn(alloc, work, classes, count, class)?;
        firsts.push(first)?;
    }
    Ok(firsts)
}

fn larger(a: u32, b: u32) -> u32
    ensures first { a ≤ result }
    ensures second { b ≤ result }
{
    if a < b { b } else { a }
}

impl ClassChains {
    /// The chains of all classes of a unit, and of so many at least. It takes time and memory linear in the classes, but for one class on
    /// each cycle of bases, which takes what its cycle has.
    pub fn build(
        alloc: Global,
        unit: &Unit,
        classes: &ClassTables,
        least: u32,
    ) -> Result<ClassChains, NoMemory>
        requires { classes.now ≡ unit.now }
        ensures chains { IfOk result (λ x. AreChains x.cells.items (classes_in unit.now.decls) x.firsts.items) }
        ensures classes { IfOk result (λ x. length (classes_in unit.now.decls) ≤ length x.firsts.items) }
        ensures least { IfOk result (λ x. least ≤ length x.firsts.items) }
    {
        let count = count_classes(unit.decls.as_slice())?;
        let room = larger(count, least);
        let order = downward(alloc, classes, count)?;
        let mut work = Work {
            cells: Vec::new(alloc),
            firsts: none_known(alloc, count as usize)?,
        };
        learn_all(alloc, &mut work, classes, count, &order)?;
        let firsts = firsts_of(alloc, &mut work, classes, count, room)?;
        let Work {
            cells,
            firsts: _firsts,
        } = work;
        Ok(ClassChains { cells, firsts })
    }
}
