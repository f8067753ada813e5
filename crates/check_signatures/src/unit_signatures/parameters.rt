//! The parameters of a routine, with numbers for what their initial values are worth.

ghost use Rattle.std.specs.Prelude.{◌≡◌, [], ◌++◌, map, flat_map, IfOk, OnOk};
ghost use Rattle.check_signatures.specs.unit_signatures.Private.Adds.{Adds};
ghost use Rattle.check_signatures.specs.unit_signatures.Private.Parameters as words;

use crate::scope_values::ScopeValues;
use crate::unit_signatures::weighed::Weighed;
use default_values::initial_worths::weigh;
use default_values::worth_numbers::WorthNumbers;
use name_resolution::Scope;
use plc_text::{Items, NoMemory, Text};
use st_rules::{Parameter, copied, is_constant, is_parameter_sort};
use st_tree::{Init, Item, Name, Section, SectionSort};
use st_types::StType;
use std::alloc::Global;
use type_resolution::written_types::type_written;

/// The most steps of containment that a type may take.
const MOST: u32 = 66;

fn parameter(
    alloc: Global,
    sort: SectionSort,
    kind: &Option<StType>,
    initial: Option<u32>,
    name: &Name,
) -> Result<Parameter<u32>, NoMemory>
    ensures { IfOk result (λ p. p ≡ words.numbered sort kind.now initial name.now) }
{
    let text = Text::copy(alloc, name.text.as_str())?;
    let kind = copied(alloc, kind)?;
    Ok(Parameter {
        sort,
        name: text,
        kind,
        initial,
    })
}

fn add_names(
    alloc: Global,
    list: &mut Items<Parameter<u32>>,
    sort: SectionSort,
    kind: &Option<StType>,
    worth: Option<u32>,
    names: &[Name],
) -> Result<(), NoMemory>
    ensures { OnOk result (list.new ≡ list.old ++ map (words.numbered sort kind.now worth) names.now) }
{
    for name in names {
        let one = parameter(alloc, sort, kind, worth, name)?;
        list.push(one)?;
    }
    Ok(())
}

/// What an initial value of this type is worth, or what the type begins with.
fn worth_of(
    alloc: Global,
    weighed: &Weighed<'_, '_>,
    table: &mut WorthNumbers,
    s: &Scope<'_>,
    kind: &Option<StType>,
    initial: &Option<Init<u32>>,
) -> Result<Option<u32>, NoMemory>
    ensures { IfOk result (λ r. words.FindsWorth weighed.now table.old table.new s.now kind.now initial.now r) }
{
    match kind {
        Some(kind) => {
            let values = ScopeValues { alloc, scope: s };
            let given = initial.as_ref();
            let structures = weighed.structures;
            let worth = weigh(alloc, table, structures, &values, MOST, kind, given)?;
            Ok(worth)
        }
        None => Ok(None),
    }
}

fn is_in_out(sort: SectionSort) -> bool
    ensures { result ≡ words.is_in_out sort }
{
    matches!(sort, SectionSort::InOut)
}

/// The worth of an initial value; an in-out has none.
fn initial_worth(
    alloc: Global,
    weighed: &Weighed<'_, '_>,
    table: &mut WorthNumbers,
    s: &Scope<'_>,
    sort: SectionSort,
    kind: &Option<StType>,
    initial: &Option<Init<u32>>,
) -> Result<Option<u32>, NoMemory>
    ensures { IfOk result (λ r. words.FindsInitial weighed.now table.old table.new s.now sort kind.now initial.now r) }
{
    if is_in_out(sort) {
        return Ok(None);
    }
    let worth = worth_of(alloc, weighed, table, s, kind, initial)?;
    Ok(worth)
}

/// Adds the parameters of an item, whose type and initial value are evaluated once.
fn add_item(
    alloc: Global,
    weighed: &Weighed<'_, '_>,
    table: &mut WorthNumbers,
    s: &Scope<'_>,
    list: &mut Items<Parameter<u32>>,
    sort: SectionSort,
    item: &Item<u32>,
) -> Result<(), NoMemory>
    ensures { OnOk result (Adds words.parameter_tells (words.AreWeighed weighed.now) table.old table.new list.old list.new (words.item_parameters weighed.now s.now sort item.now)) }
{
    let kind = type_written(alloc, s, &item.kind)?;
    let initial = initial_worth(alloc, weighed, table, s, sort, &kind, &item.initial)?;
    add_names(alloc, list, sort, &kind, initial, item.names.as_slice())?;
    Ok(())
}

fn add_items(
    alloc: Global,
    weighed: &Weighed<'_, '_>,
    table: &mut WorthNumbers,
    s: &Scope<'_>,
    list: &mut Items<Parameter<u32>>,
    sort: SectionSort,
    items: &[Item<u32>],
) -> Result<(), NoMemory>
    ensures { OnOk result (Adds words.parameter_tells (words.AreWeighed weighed.now) table.old table.new list.old list.new (flat_map (words.item_parameters weighed.now s.now sort) items.now)) }
{
    for item in items {
        add_item(alloc, weighed, table, s, list, sort, item)?;
    }
    Ok(())
}

fn has_parameters(section: &Section<u32>) -> bool
    ensures { result ≡ words.has_parameters section.now }
{
    is_parameter_sort(section.sort) && !is_constant(section.modifiers.as_slice())
}

/// Adds the parameters of a section; none where it declares constants.
fn add_section(
    alloc: Global,
    weighed: &Weighed<'_, '_>,
    table: &mut WorthNumbers,
    s: &Scope<'_>,
    list: &mut Items<Parameter<u32>>,
    section: &Section<u32>,
) -> Result<(), NoMemory>
    ensures { OnOk result (Adds words.parameter_tells (words.AreWeighed weighed.now) table.old table.new list.old list.new (words.section_parameters weighed.now s.now section.now)) }
{
    if !has_parameters(section) {
        return Ok(());
    }
    let items = section.items.as_slice();
    add_items(alloc, weighed, table, s, list, section.sort, items)?;
    Ok(())
}

/// The parameters that sections declare, in the order of the text.
pub fn parameters(
    alloc: Global,
    weighed: &Weighed<'_, '_>,
    table: &mut WorthNumbers,
    s: &Scope<'_>,
    sections: &[Section<u32>],
) -> Result<Items<Parameter<u32>>, NoMemory>
    ensures { IfOk result (λ list. Adds words.parameter_tells (words.AreWeighed weighed.now) table.old table.new [] list (flat_map (words.section_parameters weighed.now s.now) sections.now)) }
{
    let mut list = Items::new(alloc);
    for section in sections {
        add_section(alloc, weighed, table, s, &mut list, section)?;
    }
    Ok(list)
}
