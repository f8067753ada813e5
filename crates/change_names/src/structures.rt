//! The fields of structures with their old names.

ghost use Rattle.std.specs.Prelude.{◌≡◌, IfOk, map, option_map};
ghost use Rattle.st_rules.specs.Named.{first_place};
ghost use Rattle.st_change.specs.From as words;
ghost use Rattle.program_tables.specs.st_initial.Variables.{variables_of};
ghost use Rattle.st_values.specs.View.{program_of};
ghost use Rattle.change_names.specs.change_pairs.Pairs.{pairs_of};
ghost use Rattle.change_names.specs.Side.{IsSide};
ghost use Rattle.change_names.specs.Private.Classes.{listed_at};
ghost use Rattle.change_names.specs.Private.Places.{ArePlacesOf, names_of};

use crate::change_pairs::{Pair, PairTable, Places, place_of, put_name, same_names};
use crate::classes::list_of;
use crate::side::Side;
use plc_text::{Items, NoMemory, Text};
use program_tables::Variable;
use st_tree::{Note, TypeDecl};
use std::alloc::Global;
use std::collections::HashMap;

/// Where the first type of each name stands.
fn type_places(alloc: Global, types: &[TypeDecl<Note>]) -> Result<Places, NoMemory>
    ensures { IfOk result (λ table. ArePlacesOf table (names_of types.now)) }
{
    let mut table: Places = HashMap::new(alloc);
    let mut i = types.len();
    'types: while i > 0 {
        i -= 1;
        put_name(alloc, &mut table, &types[i].name.text, i)?;
    }
    Ok(table)
}

/// The fields of the structure of a name, where there is one.
fn fields_named<'a>(
    side: &Side<'a>,
    places: &Places,
    name: &Text,
) -> Option<&'a Items<Variable<'a>>>
    requires is_side { IsSide side.now }
    requires types { ArePlacesOf places.now (names_of side.now.program.now.types) }
    ensures { listed_at (option_map (λ vs. vs.now) result) ≡ words.structure_named (program_of side.now.program.now).types name.now }
{
    match place_of(places, name) {
        Some(place) => list_of(&side.members.structures, place),
        None => None,
    }
}

/// Fields with their old names, by those of the old structure, where there is one.
fn names_by<'p>(
    alloc: Global,
    fields: &[Variable<'p>],
    before: Option<&Items<Variable<'_>>>,
) -> Result<Vec<Pair<'p>>, NoMemory>
    ensures { IfOk result (λ pairs. pairs_of pairs.items ≡ words.pairs_by (words.same_name (listed_at (option_map (λ vs. vs.now) before.entry))) (variables_of fields.now)) }
{
    match before {
        Some(before) => same_names(alloc, fields, before.as_slice()),
        None => same_names(alloc, fields, &[]),
    }
}

/// The fields of the structure of a name with their old names.
fn pairs_named<'p>(
    alloc: Global,
    old: &Side<'_>,
    new: &Side<'p>,
    old_places: &Places,
    new_places: &Places,
    name: &Text,
) -> Result<Vec<Pair<'p>>, NoMemory>
    requires old_side { IsSide old.now }
    requires new_side { IsSide new.now }
    requires old_types { ArePlacesOf old_places.now (names_of old.now.program.now.types) }
    requires new_types { ArePlacesOf new_places.now (names_of new.now.program.now.types) }
    ensures { IfOk result (λ pairs. pairs_of pairs.items ≡ words.structure_pairs (program_of old.now.program.now) (program_of new.now.program.now) name.now) }
{
    match fields_named(new, new_places, name) {
        Some(fields) => {
            let before = fields_named(old, old_places, name);
            let pairs = names_by(alloc, fields.as_slice(), before)?;
            Ok(pairs)
        }
        None => Ok(Vec::new(alloc)),
    }
}

/// The tables of the fields of all structures, by the numbers of types.
pub fn structure_tables<'p>(
    alloc: Global,
    old: &Side<'_>,
    new: &Side<'p>,
) -> Result<Vec<PairTable<'p>>, NoMemory>
    requires old_side { IsSide old.now }
    requires new_side { IsSide new.now }
    ensures { IfOk result (λ tables. tables.items ≡ map (λ t. words.structure_pairs (program_of old.now.program.now) (program_of new.now.program.now) t.name) (program_of new.now.program.now).types) }
{
    let old_places = type_places(alloc, old.program.types.as_slice())?;
    let types = new.program.types.as_slice();
    let new_places = type_places(alloc, types)?;
    let mut tables = Vec::new(alloc);
    for decl in types {
        let pairs = pairs_named(alloc, old, new, &old_places, &new_places, &decl.name.text)?;
        let table = PairTable::build(alloc, pairs)?;
        tables.push(table)?;
    }
    Ok(tables)
}
