//! Where names stand in lists, by hash.

ghost use Rattle.std.specs.Prelude.{◌≡◌, ℕ, List, IfOk, OnOk, Some, if◌then◌else◌, option_map};
ghost use Rattle.plc_text.specs.Words.{same};
ghost use Rattle.st_change.specs.From.{is_name};
ghost use Rattle.change_names.specs.change_pairs.Places.{Finds, found_in, first_where, last_where};
ghost use Rattle.change_names.specs.change_pairs.Variables.{has_name};
ghost use Rattle.change_names.specs.change_pairs.Private.Variables.{has_mark, is_pair_of, comes_from};

use crate::change_pairs::sources::Pair;
use plc_text::{NoMemory, Text, narrowed};
use program_tables::Variable;
use std::alloc::Global;
use std::collections::HashMap;

/// Where names stand.
pub type Places = HashMap<Text, u32>;

/// The place of a name.
pub fn place_of(table: &Places, name: &Text) -> Option<u32>
    ensures { result ≡ found_in table.now name.now }
{
    table.get(name).copied()
}

/// Puts a name at a place.
pub fn put_name(
    alloc: Global,
    table: &mut Places,
    name: &Text,
    place: usize,
) -> Result<(), NoMemory>
    ensures { OnOk result ((n : List ℕ) → found_in table.new n ≡ (if same name.now n then Some place else found_in table.old n)) }
{
    let key = Text::copy(alloc, name.as_str())?;
    let place = narrowed(place)?;
    table.insert(key, place)?;
    Ok(())
}

/// Puts a name at a place, where there is one.
fn put(alloc: Global, table: &mut Places, name: Option<&Text>, place: usize) -> Result<(), NoMemory>
    ensures { OnOk result ((n : List ℕ) → found_in table.new n ≡ (if is_name (option_map (λ t. t.now) name.entry) n then Some place else found_in table.old n)) }
{
    match name {
        Some(name) => put_name(alloc, table, name, place),
        None => Ok(()),
    }
}

/// Where the first variable of each name stands.
pub fn name_places(alloc: Global, all: &[Variable<'_>]) -> Result<Places, NoMemory>
    ensures { IfOk result (λ table. Finds table (λ name. first_where (has_name name) all.now)) }
{
    let mut table: Places = HashMap::new(alloc);
    let mut i = all.len();
    'variables: while i > 0 {
        i -= 1;
        put_name(alloc, &mut table, all[i].name, i)?;
    }
    Ok(table)
}

/// Where the first variable stands that is marked with each old name.
pub fn mark_places(alloc: Global, all: &[Variable<'_>]) -> Result<Places, NoMemory>
    ensures { IfOk result (λ table. Finds table (λ name. first_where (has_mark name) all.now)) }
{
    let mut table: Places = HashMap::new(alloc);
    let mut i = all.len();
    'variables: while i > 0 {
        i -= 1;
        put(alloc, &mut table, all[i].renamed_from, i)?;
    }
    Ok(table)
}

/// Where the first pair of each name stands.
pub fn pair_places(alloc: Global, all: &[Pair<'_>]) -> Result<Places, NoMemory>
    ensures { IfOk result (λ table. Finds table (λ name. first_where (is_pair_of name) all.now)) }
{
    let mut table: Places = HashMap::new(alloc);
    let mut i = all.len();
    'pairs: while i > 0 {
        i -= 1;
        put_name(alloc, &mut table, all[i].name, i)?;
    }
    Ok(table)
}

/// Where the last pair stands that comes from each old name.
pub fn source_places(alloc: Global, all: &[Pair<'_>]) -> Result<Places, NoMemory>
    ensures { IfOk result (λ table. Finds table (λ name. last_where (comes_from name) all.now)) }
{
    let mut table: Places = HashMap::new(alloc);
    for (i, pair) in all.iter().enumerate() {
        put(alloc, &mut table, pair.from, i)?;
    }
    Ok(table)
}
