//! Tables of names: where the first of each name stands that passes a test.

ghost use Rattle.std.specs.Prelude.{◌≡◌, ℕ, Bool, true, IfOk, MatchOption, None, Some, filter, option_and_then, slice_get};
ghost use Rattle.st_rules.specs.declared.names.DeclaredVariable.{DeclaredVariable as Variable};
ghost use Rattle.st_rules.specs.Scope as scope;
ghost use Rattle.st_rules.specs.Scope.{first_named};
ghost use Rattle.name_resolution.specs.Private.Places as places;
ghost use Rattle.name_resolution.specs.Private.Places.{IsTableOf};

use plc_text::{NoMemory, Text, narrowed};
use st_rules::{
    DeclaredField, DeclaredGlobal, DeclaredType, DeclaredVariable, is_external, is_instance_sort,
};
use std::alloc::Global;
use std::collections::HashMap;

/// Where the first of each name stands.
pub type Places = HashMap<Text, usize>;

/// The same as numbers of declarations.
pub type Numbers = HashMap<Text, u32>;

/// Which variables of a class count.
#[derive(Clone, Copy, Debug, PartialEq, Eq)]
pub enum Which {
    /// All that it declares.
    All,
    /// What it leaves to those derived from it.
    Inherited,
    /// What each instance has.
    OfInstance,
}

fn passes(which: Which, v: &DeclaredVariable) -> bool
    ensures { result ≡ places.passes which v.now }
{
    match which {
        Which::All => true,
        Which::Inherited => !is_external(v.sort),
        Which::OfInstance => is_instance_sort(v.sort) && !v.constant,
    }
}

pub fn variables(alloc: Global, all: &[DeclaredVariable], which: Which) -> Result<Places, NoMemory>
    ensures { IfOk result (λ table. IsTableOf (λ v. v.name) (places.passes which) table all.now) }
{
    let mut table: Places = HashMap::new(alloc);
    let mut i = all.len();
    'places: while i > 0 {
        i -= 1;
        if passes(which, &all[i]) {
            let name = Text::copy(alloc, all[i].name.as_str())?;
            table.insert(name, i)?;
        }
    }
    Ok(table)
}

pub fn types(alloc: Global, all: &[DeclaredType]) -> Result<Places, NoMemory>
    ensures { IfOk result (λ table. IsTableOf (λ t. t.name) (λ t. true) table all.now) }
{
    let mut table: Places = HashMap::new(alloc);
    let mut i = all.len();
    'places: while i > 0 {
        i -= 1;
        let name = Text::copy(alloc, all[i].name.as_str())?;
        table.insert(name, i)?;
    }
    Ok(table)
}

pub fn fields(alloc: Global, all: &[DeclaredField]) -> Result<Numbers, NoMemory>
    ensures { IfOk result (λ table. IsTableOf (λ f. f.name) (λ f. true) table all.now) }
{
    let mut table: Numbers = HashMap::new(alloc);
    let mut i = all.len();
    'places: while i > 0 {
        i -= 1;
        let name = Text::copy(alloc, all[i].name.as_str())?;
        table.insert(name, narrowed(i)?)?;
    }
    Ok(table)
}

pub fn values(alloc: Global, all: &[Text]) -> Result<Numbers, NoMemory>
    ensures { IfOk result (λ table. IsTableOf (λ n. n) (λ n. true) table all.now) }
{
    let mut table: Numbers = HashMap::new(alloc);
    let mut i = all.len();
    'places: while i > 0 {
        i -= 1;
        let name = Text::copy(alloc, all[i].as_str())?;
        table.insert(name, narrowed(i)?)?;
    }
    Ok(table)
}

fn global_name(global: &DeclaredGlobal) -> &Text
    ensures { result.now ≡ scope.global_name global.now }
{
    match global {
        DeclaredGlobal::Variable(v) => &v.name,
        DeclaredGlobal::Function(_, r) => &r.name,
    }
}

fn is_variable(global: &DeclaredGlobal) -> bool
    ensures { result ≡ places.is_variable global.now }
{
    matches!(global, DeclaredGlobal::Variable(_))
}

pub fn globals(alloc: Global, all: &[DeclaredGlobal]) -> Result<Places, NoMemory>
    ensures { IfOk result (λ table. IsTableOf scope.global_name (λ g. true) table all.now) }
{
    let mut table: Places = HashMap::new(alloc);
    let mut i = all.len();
    'places: while i > 0 {
        i -= 1;
        let name = Text::copy(alloc, global_name(&all[i]).as_str())?;
        table.insert(name, i)?;
    }
    Ok(table)
}

pub fn global_variables(alloc: Global, all: &[DeclaredGlobal]) -> Result<Places, NoMemory>
    ensures { IfOk result (λ table. IsTableOf scope.global_name places.is_variable table all.now) }
{
    let mut table: Places = HashMap::new(alloc);
    let mut i = all.len();
    'places: while i > 0 {
        i -= 1;
        if is_variable(&all[i]) {
            let name = Text::copy(alloc, global_name(&all[i]).as_str())?;
            table.insert(name, i)?;
        }
    }
    Ok(table)
}

/// The number of the first of the name.
pub fn number_of(table: &Numbers, name: &Text) -> Option<u32>
    ensures { result ≡ places.found_in table.now name.now }
{
    table.get(name).copied()
}

/// Where the first of the name stands.
pub fn place_of(table: &Places, name: &Text) -> Option<usize>
    ensures { result ≡ places.found_in table.now name.now }
{
    table.get(name).copied()
}

pub fn variable_there(all: &[DeclaredVariable], place: Option<usize>) -> Option<&DeclaredVariable>
    ensures { MatchOption result (option_and_then (slice_get all.now) place ≡ None) (λ v. option_and_then (slice_get all.now) place ≡ Some v.now) }
{
    all.get(place?)
}

/// The first variable of the name that passes the table's test.
pub fn variable_at<'a>(
    table: &Places,
    all: &'a [DeclaredVariable],
    name: &Text,
) -> Option<&'a DeclaredVariable>
    ensures { (test : Variable → Bool) → IsTableOf (λ v. v.name) test table.now all.now
        → MatchOption result (first_named (λ v. v.name) name.now (filter test all.now) ≡ None) (λ v. first_named (λ v. v.name) name.now (filter test all.now) ≡ Some v.now) }
{
    variable_there(all, place_of(table, name))
}
