//! The variables of classes and programs with their old names.

ghost use Rattle.std.specs.Prelude.{◌≡◌, ◌≤◌, ◌+◌, ◌++◌, ◌↔◌, ℕ, Some, IsTrue, length, IfOk, IfSome, OnOk, option_map};
ghost use Rattle.st_change.specs.From as words;
ghost use Rattle.program_tables.specs.st_initial.Members.{list_at};
ghost use Rattle.program_tables.specs.st_initial.Variables.{variables_of};
ghost use Rattle.st_values.specs.Program.{Class, class_at, own_of};
ghost use Rattle.st_values.specs.View.{program_of};
ghost use Rattle.change_names.specs.change_pairs.Pairs.{pairs_of};
ghost use Rattle.change_names.specs.Pairs.{pairs_at};
ghost use Rattle.change_names.specs.Side.{IsSide};
ghost use Rattle.change_names.specs.Private.Classes.{AreOwnPairs, class_by, listed_at, own_pairs_at};

use crate::change_pairs::{Pair, PairTable, origins};
use crate::own::own_lists;
use crate::side::Side;
use plc_text::{Items, NoMemory, Text, narrowed};
use program_tables::Variable;
use st_tree::Program;
use std::alloc::Global;

/// The name of a class or a program, by its number.
#[tactic(auto, using(crate::proofs::ClassLaws::class_named, crate::proofs::ClassLaws::program_named))]
fn class_name(program: &Program, class: u32) -> Option<&Text>
    ensures { option_map (λ t. t.now) result ≡ option_map (λ k. k.name) (class_at (program_of program.now) class) }
{
    let class = class as usize;
    let count = program.classes.len();
    if class < count {
        match program.classes.get(class) {
            Some(decl) => Some(&decl.name.text),
            None => None,
        }
    } else {
        match program.programs.get(class - count) {
            Some(decl) => Some(&decl.name.text),
            None => None,
        }
    }
}

/// Whether a number is that of a program.
fn is_of_program(program: &Program, class: u32) -> bool
    ensures { IsTrue result ↔ (length program.now.classes ≤ class) }
{
    class as usize >= program.classes.len()
}

/// Whether two numbers are those of classes, or those of programs.
fn is_same_sort(old: &Side<'_>, new: &Side<'_>, found: u32, class: u32) -> bool
    ensures { (k c : Class) → class_at (program_of new.now.program.now) class ≡ Some k → class_at (program_of old.now.program.now) found ≡ Some c → result ≡ words.same_flag (words.is_program k.sort) (words.is_program c.sort) }
{
    if is_of_program(new.program, class) {
        is_of_program(old.program, found)
    } else {
        !is_of_program(old.program, found)
    }
}

/// The old class of the name and sort of a class.
fn old_class(old: &Side<'_>, new: &Side<'_>, class: u32) -> Option<u32>
    requires old_side { IsSide old.now }
    requires new_side { IsSide new.now }
    ensures { (k : Class) → class_at (program_of new.now.program.now) class ≡ Some k → words.old_class (program_of old.now.program.now) k ≡ class_by (program_of old.now.program.now) result }
{
    let Some(name) = class_name(new.program, class) else {
        return None;
    };
    let Some(found) = old.tables.class_number(name) else {
        return None;
    };
    if is_same_sort(old, new, found, class) {
        Some(found)
    } else {
        None
    }
}

/// The variables of a number in a list.
pub fn list_of<'a, 'p>(
    lists: &'a Items<Items<Variable<'p>>>,
    number: u32,
) -> Option<&'a Items<Variable<'p>>>
    ensures { listed_at (option_map (λ vs. vs.now) result) ≡ list_at lists.now number }
{
    lists.get(number as usize)
}

/// The variables that the old class of a class declares itself, where there is one.
fn old_own_of<'a, 'o>(
    old: &Side<'_>,
    new: &Side<'_>,
    lists: &'a Items<Items<Variable<'o>>>,
    class: u32,
) -> Option<&'a Items<Variable<'o>>>
    requires old_side { IsSide old.now }
    requires new_side { IsSide new.now }
    requires own_lists { (c : ℕ) → list_at lists.now c ≡ own_of (class_at (program_of old.now.program.now) c) }
    ensures { (k : Class) → class_at (program_of new.now.program.now) class ≡ Some k → listed_at (option_map (λ vs. vs.now) result) ≡ own_of (words.old_class (program_of old.now.program.now) k) }
{
    match old_class(old, new, class) {
        Some(found) => list_of(lists, found),
        None => None,
    }
}

/// Variables of a declaration with their old names, by those of the old declaration, where there is one.
fn origins_by<'p>(
    alloc: Global,
    own: &[Variable<'p>],
    before: Option<&Items<Variable<'_>>>,
) -> Result<Vec<Pair<'p>>, NoMemory>
    ensures { IfOk result (λ pairs. pairs_of pairs.items ≡ words.pairs_by (words.from (variables_of own.now) (listed_at (option_map (λ vs. vs.now) before.entry))) (variables_of own.now)) }
{
    match before {
        Some(before) => origins(alloc, own, before.as_slice()),
        None => origins(alloc, own, &[]),
    }
}

/// The variables that a class declares itself with their old names.
fn own_pairs<'p>(
    alloc: Global,
    old: &Side<'_>,
    new: &Side<'_>,
    old_lists: &Items<Items<Variable<'_>>>,
    new_lists: &Items<Items<Variable<'p>>>,
    class: u32,
) -> Result<Vec<Pair<'p>>, NoMemory>
    requires old_side { IsSide old.now }
    requires new_side { IsSide new.now }
    requires old_own { (c : ℕ) → list_at old_lists.now c ≡ own_of (class_at (program_of old.now.program.now) c) }
    requires new_own { (c : ℕ) → list_at new_lists.now c ≡ own_of (class_at (program_of new.now.program.now) c) }
    ensures { IfOk result (λ pairs. pairs_of pairs.items ≡ words.own_pairs (program_of old.now.program.now) (class_at (program_of new.now.program.now) class)) }
{
    match list_of(new_lists, class) {
        Some(own) => {
            let before = old_own_of(old, new, old_lists, class);
            let pairs = origins_by(alloc, own.as_slice(), before)?;
            Ok(pairs)
        }
        None => Ok(Vec::new(alloc)),
    }
}

/// How many classes and programs there are.
fn count(program: &Program) -> Option<usize>
    ensures { IfSome result (λ n. n ≡ length program.now.classes + length program.now.programs) }
{
    program.classes.len().checked_add(program.programs.len())
}

/// The variables that each class declares itself with their old names.
fn all_own_pairs<'p>(
    alloc: Global,
    old: &Side<'_>,
    new: &Side<'p>,
) -> Result<Items<Items<Pair<'p>>>, NoMemory>
    requires old_side { IsSide old.now }
    requires new_side { IsSide new.now }
    ensures { IfOk result (λ all. AreOwnPairs (program_of old.now.program.now) (program_of new.now.program.now) all) }
{
    let Some(end) = count(new.program) else {
        return Err(NoMemory);
    };
    let old_own = own_lists(alloc, old.program)?;
    let new_own = own_lists(alloc, new.program)?;
    let mut all = Items::new(alloc);
    for c in 0..end {
        let class = narrowed(c)?;
        let pairs = own_pairs(alloc, old, new, &old_own, &new_own, class)?;
        all.push(Items::from_vec(pairs))?;
    }
    Ok(all)
}

/// Adds the pairs of a list.
fn push_pairs<'p>(out: &mut Vec<Pair<'p>>, pairs: &[Pair<'p>]) -> Result<(), NoMemory>
    ensures { OnOk result (pairs_of out.new.items ≡ pairs_of out.old.items ++ pairs_of pairs.now) }
{
    for pair in pairs {
        out.push(*pair)?;
    }
    Ok(())
}

/// Adds the pairs of a class, where it is there.
fn push_class<'p>(
    out: &mut Vec<Pair<'p>>,
    own: &Items<Items<Pair<'p>>>,
    class: u32,
) -> Result<(), NoMemory>
    ensures { OnOk result (pairs_of out.new.items ≡ pairs_of out.old.items ++ own_pairs_at own.now class) }
{
    match own.get(class as usize) {
        Some(pairs) => push_pairs(out, pairs.as_slice()),
        None => Ok(()),
    }
}

/// The variables of a class with their old names, those of its bases first.
fn class_pairs<'p>(
    alloc: Global,
    old: &Side<'_>,
    new: &Side<'p>,
    own: &Items<Items<Pair<'p>>>,
    class: u32,
) -> Result<Vec<Pair<'p>>, NoMemory>
    requires side { IsSide new.now }
    requires own_pairs { AreOwnPairs (program_of old.now.program.now) (program_of new.now.program.now) own.now }
    ensures { IfOk result (λ pairs. pairs_of pairs.items ≡ words.class_pairs (program_of old.now.program.now) (program_of new.now.program.now) class) }
{
    let _ = old;
    let chain = new.tables.chain(alloc, class)?;
    let mut out = Vec::new(alloc);
    let mut left = chain.as_slice();
    'classes: while let Some((class, behind)) = left.split_last() {
        push_class(&mut out, own, *class)?;
        left = behind;
    }
    Ok(out)
}

/// The tables of the variables of all classes, by number.
pub fn class_tables<'p>(
    alloc: Global,
    old: &Side<'_>,
    new: &Side<'p>,
) -> Result<Vec<PairTable<'p>>, NoMemory>
    requires old_side { IsSide old.now }
    requires new_side { IsSide new.now }
    ensures { IfOk result (λ tables. (c : ℕ) → pairs_at tables.items c ≡ words.class_pairs (program_of old.now.program.now) (program_of new.now.program.now) c) }
{
    let Some(end) = count(new.program) else {
        return Err(NoMemory);
    };
    let own = all_own_pairs(alloc, old, new)?;
    let mut tables = Vec::new(alloc);
    for c in 0..end {
        let class = narrowed(c)?;
        let pairs = class_pairs(alloc, old, new, &own, class)?;
        let table = PairTable::build(alloc, pairs)?;
        tables.push(table)?;
    }
    Ok(tables)
}
