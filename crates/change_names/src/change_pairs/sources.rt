//! The old names of the variables of one declaration.

ghost use Rattle.std.specs.Prelude.{◌≡◌, IfOk, is_some, option_map};
ghost use Rattle.st_change.specs.From as words;
ghost use Rattle.program_tables.specs.st_initial.Variables.{variables_of};
ghost use Rattle.change_names.specs.change_pairs.Pairs.{pairs_of};
ghost use Rattle.change_names.specs.change_pairs.Places.{found_in};
ghost use Rattle.change_names.specs.change_pairs.Private.Variables.{from_by, name_at, own_by, same_by};

use crate::change_pairs::places::{Places, mark_places, name_places, place_of};
use plc_text::{NoMemory, Text};
use program_tables::Variable;
use std::alloc::Global;

/// The name of a variable, and the old name that it comes from.
#[derive(Clone, Copy)]
pub struct Pair<'p> {
    pub name: &'p Text,
    pub from: Option<&'p Text>,
}

/// Whether a name stands in a table.
fn is_declared(table: &Places, name: &Text) -> bool
    ensures { result ≡ is_some (found_in table.now name.now) }
{
    place_of(table, name).is_some()
}

/// The first variable that is marked with an old name.
fn marked<'p>(marks: &Places, new: &[Variable<'p>], old: &Text) -> Option<&'p Text>
    ensures { option_map (λ t. t.now) result ≡ name_at new.now (found_in marks.now old.now) }
{
    match place_of(marks, old) {
        Some(k) => match new.get(k as usize) {
            Some(variable) => Some(variable.name),
            None => None,
        },
        None => None,
    }
}

/// Whether the first variable that is marked with an old name has this name.
fn is_marked_first(marks: &Places, new: &[Variable<'_>], old: &Text, name: &Text) -> bool
    ensures { result ≡ words.is_name (name_at new.now (found_in marks.now old.now)) name.now }
{
    match marked(marks, new, old) {
        Some(first) => *first == *name,
        None => false,
    }
}

/// Whether a variable is marked with an old name.
fn is_mark(marks: &Places, new: &[Variable<'_>], old: &Text) -> bool
    ensures { result ≡ is_some (name_at new.now (found_in marks.now old.now)) }
{
    marked(marks, new, old).is_some()
}

/// Its own name, where the old declaration has it and no mark that counts names it.
fn own_name<'p>(
    declared: &Places,
    marks: &Places,
    new: &[Variable<'p>],
    variable: &Variable<'p>,
) -> Option<&'p Text>
    ensures { option_map (λ t. t.now) result ≡ own_by (found_in declared.now) (found_in marks.now) new.now variable.now }
{
    if is_declared(declared, variable.name) && !is_mark(marks, new, variable.name) {
        Some(variable.name)
    } else {
        None
    }
}

/// The old name of a variable.
pub fn from<'p>(
    declared: &Places,
    marks: &Places,
    new: &[Variable<'p>],
    variable: &Variable<'p>,
) -> Option<&'p Text>
    ensures { option_map (λ t. t.now) result ≡ from_by (found_in declared.now) (found_in marks.now) new.now variable.now }
{
    match variable.renamed_from {
        Some(old) => {
            if is_declared(declared, old) && is_marked_first(marks, new, old, variable.name) {
                Some(old)
            } else {
                own_name(declared, marks, new, variable)
            }
        }
        None => own_name(declared, marks, new, variable),
    }
}

/// The variables that a declaration has itself with their old names, by the variables of the old declaration.
pub fn origins<'p>(
    alloc: Global,
    new: &[Variable<'p>],
    old: &[Variable<'_>],
) -> Result<Vec<Pair<'p>>, NoMemory>
    ensures { IfOk result (λ pairs. pairs_of pairs.items ≡ words.pairs_by (words.from (variables_of new.now) (variables_of old.now)) (variables_of new.now)) }
{
    let declared = name_places(alloc, old)?;
    let marks = mark_places(alloc, new)?;
    let mut pairs = Vec::new(alloc);
    for variable in new {
        let from = from(&declared, &marks, new, variable);
        pairs.push(Pair {
            name: variable.name,
            from,
        })?;
    }
    Ok(pairs)
}

/// The name of a variable, where it is in the table.
pub fn same_name<'p>(declared: &Places, variable: &Variable<'p>) -> Option<&'p Text>
    ensures { option_map (λ t. t.now) result ≡ same_by (found_in declared.now) variable.now }
{
    if is_declared(declared, variable.name) {
        Some(variable.name)
    } else {
        None
    }
}

/// Variables that cannot be renamed with their old names: their own, where the old list has them.
pub fn same_names<'p>(
    alloc: Global,
    new: &[Variable<'p>],
    old: &[Variable<'_>],
) -> Result<Vec<Pair<'p>>, NoMemory>
    ensures { IfOk result (λ pairs. pairs_of pairs.items ≡ words.pairs_by (words.same_name (variables_of old.now)) (variables_of new.now)) }
{
    let declared = name_places(alloc, old)?;
    let mut pairs = Vec::new(alloc);
    for variable in new {
        let from = same_name(&declared, variable);
        pairs.push(Pair {
            name: variable.name,
            from,
        })?;
    }
    Ok(pairs)
}
