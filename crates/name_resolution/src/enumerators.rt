//! Bare enumerators: in which enumerations a name stands.

ghost use Rattle.std.specs.Prelude.{◌≡◌, ℕ, List, None, Some, IfOk, OnOk, MatchOption, if◌then◌else◌};
ghost use Rattle.std.specs.List.{list_any};
ghost use Rattle.plc_text.specs.Words.{same};
ghost use Rattle.name_resolution.specs.Private.Places as places;
ghost use Rattle.name_resolution.specs.Private.Enumerators as enumerators;

use crate::places::Numbers;
use crate::tables::value_names;
use plc_text::{NoMemory, Text, narrowed};
use st_rules::TypeParts;
use std::alloc::Global;
use std::collections::HashMap;

/// Notes the number for each of the names.
fn note_all(alloc: Global, table: &mut Numbers, names: &[Text], number: u32) -> Result<(), NoMemory>
    ensures { OnOk result ((name : List ℕ) → places.found_in table.new name ≡ (if list_any (λ n. same n name) names.now then Some number else places.found_in table.old name)) }
{
    let mut i = names.len();
    'names: while i > 0 {
        i -= 1;
        let name = Text::copy(alloc, names[i].as_str())?;
        table.insert(name, number)?;
    }
    Ok(())
}

/// The first entry of TYPE that is an enumeration with a value of the name.
pub fn first_enumerations(alloc: Global, parts: &[TypeParts]) -> Result<Numbers, NoMemory>
    ensures { IfOk result (λ table. (name : List ℕ) → places.found_in table name ≡ enumerators.first_having 0 parts.now name) }
{
    let mut table: Numbers = HashMap::new(alloc);
    let mut i = parts.len();
    'parts: while i > 0 {
        i -= 1;
        let number = narrowed(i)?;
        note_all(alloc, &mut table, value_names(&parts[i]), number)?;
    }
    Ok(table)
}

/// The last one.
pub fn last_enumerations(alloc: Global, parts: &[TypeParts]) -> Result<Numbers, NoMemory>
    ensures { IfOk result (λ table. (name : List ℕ) → places.found_in table name ≡ enumerators.last_having None 0 parts.now name) }
{
    let mut table: Numbers = HashMap::new(alloc);
    for (i, part) in parts.iter().enumerate() {
        let number = narrowed(i)?;
        note_all(alloc, &mut table, value_names(part), number)?;
    }
    Ok(table)
}
