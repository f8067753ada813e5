//! What a list of values gives to the variables of a structure or an instance.

ghost use Rattle.std.specs.Prelude.{◌≡◌, ℕ, List, IfOk, OnOk, Some, if◌then◌else◌};
ghost use Rattle.plc_text.specs.Words.{same};
ghost use Rattle.st_tree.specs.Initial.{fields_of};
ghost use Rattle.st_values.specs.Initial as words;
ghost use Rattle.initial_trees.specs.Private.Given.{Finds, IsIndex, found_in, given_at};
ghost use Rattle.initial_trees.specs.Private.Trees.{given_by};

use plc_text::{NoMemory, Text};
use program_tables::given_for;
use st_tree::{FieldInit, Init, Note};
use std::alloc::Global;
use std::collections::HashMap;

/// A list of so many values is worth a table.
const MANY: usize = 8;

/// Where the value for each name stands, by hash.
pub type Places = HashMap<Text, usize>;

fn put_name(alloc: Global, table: &mut Places, name: &Text, place: usize) -> Result<(), NoMemory>
    ensures { OnOk result ((n : List ℕ) → found_in table.new n ≡ (if same name.now n then Some place else found_in table.old n)) }
{
    let key = Text::copy(alloc, name.as_str())?;
    table.insert(key, place)?;
    Ok(())
}

/// Where the first value for each name stands.
fn places(alloc: Global, inits: &[FieldInit<Note>]) -> Result<Places, NoMemory>
    ensures { IfOk result (λ table. Finds table inits.now) }
{
    let mut table: Places = HashMap::new(alloc);
    let mut i = inits.len();
    'inits: while i > 0 {
        i -= 1;
        put_name(alloc, &mut table, &inits[i].name, i)?;
    }
    Ok(table)
}

/// A table of a list that is long enough for one.
pub fn index_of(alloc: Global, inits: &[FieldInit<Note>]) -> Result<Option<Places>, NoMemory>
    ensures { IfOk result (λ index. IsIndex index inits.now) }
{
    if inits.len() < MANY {
        return Ok(None);
    }
    Ok(Some(places(alloc, inits)?))
}

fn place_of(table: &Places, name: &Text) -> Option<usize>
    ensures { result ≡ found_in table.now name.now }
{
    table.get(name).copied()
}

fn value_there(inits: &[FieldInit<Note>], place: Option<usize>) -> Option<&Init<Note>>
    ensures { given_by result ≡ given_at inits.now place }
{
    let init = inits.get(place?)?;
    Some(&init.value)
}

/// What is given to a name, by the index of the list.
pub fn given_named<'p>(
    index: &Option<Places>,
    inits: &'p [FieldInit<Note>],
    name: &Text,
) -> Option<&'p Init<Note>>
    requires { IsIndex index.now inits.now }
    ensures { given_by result ≡ words.given_for name.now (fields_of inits.now) }
{
    match index {
        Some(table) => value_there(inits, place_of(table, name)),
        None => given_for(name, inits),
    }
}
