//! Variables of classes, sought upward from a class to its bases.

ghost use Rattle.std.specs.Prelude.{◌≡◌, ◌+◌, ℕ, Bool, length, IfOk, MatchOption, None, Some, slice_get};
ghost use Rattle.st_rules.specs.declared.names.DeclaredVariable.{DeclaredVariable as Variable};
ghost use Rattle.name_resolution.specs.Private.Places as places;
ghost use Rattle.st_rules.specs.Upward.{upward, base_in};
ghost use Rattle.name_resolution.specs.Private.Climb.{variables_at, AreTablesOf, own, own_with_class};

use crate::places::{Places, Which, variable_at, variables};
use plc_text::{NoMemory, Text};
use st_rules::{DeclaredClass, DeclaredVariable};
use std::alloc::Global;

/// A table for each class, of its variables that count.
pub fn tables_of(
    alloc: Global,
    classes: &[DeclaredClass],
    which: Which,
) -> Result<Vec<Places>, NoMemory>
    ensures { IfOk result (λ tables. AreTablesOf (places.passes which) tables.items classes.now) }
{
    let mut tables = Vec::new(alloc);
    for class in classes {
        let table = variables(alloc, class.variables.as_slice(), which)?;
        tables.push(table)?;
    }
    Ok(tables)
}

/// What a class declares itself; nothing where there is no such class.
pub fn variables_at_class(classes: &[DeclaredClass], class: u32) -> &[DeclaredVariable]
    ensures { result.now ≡ variables_at classes.now class }
{
    match classes.get(class as usize) {
        Some(class) => class.variables.as_slice(),
        None => &[],
    }
}

/// The number of the base, where a class has one that is found.
pub fn base_of(bases: &[Option<u32>], class: u32) -> Option<u32>
    ensures { result ≡ base_in bases.now class }
{
    match bases.get(class as usize) {
        Some(base) => *base,
        None => None,
    }
}

fn table_of(tables: &[Places], class: u32) -> Option<&Places>
    ensures { MatchOption result (slice_get tables.now class ≡ None) (λ t. slice_get tables.now class ≡ Some t.now) }
{
    tables.get(class as usize)
}

/// The first variable of the name that a class declares itself.
pub fn own_variable<'a>(
    tables: &[Places],
    classes: &'a [DeclaredClass],
    class: u32,
    name: &Text,
) -> Option<&'a DeclaredVariable>
    ensures { (test : Variable → Bool) → AreTablesOf test tables.now classes.now
        → MatchOption result (own test classes.now name.now class ≡ None) (λ v. own test classes.now name.now class ≡ Some v.now) }
{
    match table_of(tables, class) {
        Some(table) => variable_at(table, variables_at_class(classes, class), name),
        None => None,
    }
}

/// The nearest variable of the name, from a class upward, with the class that declares it.
#[tactic(auto, using(st_rules::proofs::UpwardLaws::upward_next))]
pub fn nearest_variable<'a>(
    bases: &[Option<u32>],
    tables: &[Places],
    classes: &'a [DeclaredClass],
    class: u32,
    name: &Text,
) -> Option<(u32, &'a DeclaredVariable)>
    ensures { (test : Variable → Bool) → AreTablesOf test tables.now classes.now
        → MatchOption result (upward (own_with_class test classes.now name.now) (base_in bases.now) (length bases.now + 1) class ≡ None)
        (λ x. upward (own_with_class test classes.now name.now) (base_in bases.now) (length bases.now + 1) class ≡ Some (x.0, x.1.now)) }
{
    let mut at = class;
    let mut left = bases.len() + 1;
    'classes: while left > 0 {
        left -= 1;
        if let Some(found) = own_variable(tables, classes, at, name) {
            return Some((at, found));
        }
        match base_of(bases, at) {
            Some(base) => at = base,
            None => return None,
        }
    }
    None
}
