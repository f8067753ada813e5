//! The constants among locals are told one by one, in an order of need.

ghost use Rattle.std.specs.Prelude.{◌≡◌, ◌+◌, suc, map, drop, IfOk, OnOk};
ghost use Rattle.st_tree.specs.declared.program.Target.TheVariants as target;
ghost use Rattle.st_unit_rules.specs.declaration_list.Written.{global_of, names_in_sections};
ghost use Rattle.resolution_order.specs.told_laws.LocalLaws.{with_local};
ghost use Rattle.type_resolution.specs.told_locals.Around.{IsAround, sections_of};
ghost use Rattle.type_resolution.specs.told_locals.Private.Telling.{IsTold, first_of, told_behind};

use crate::told_locals::around::{Around, Declaring, found_with};
use name_resolution::{Places, tell_local};
use plc_text::{NoMemory, Series};
use st_rules::DeclaredVariable;
use st_tree::Target;
use st_types::StType;
use st_unit_rules::declaration_list::WrittenName;
use std::alloc::Global;

/// Locals with what is told of them so far, and where their names stand.
#[derive(Drop)]
pub struct Told {
    pub known: Series<DeclaredVariable>,
    pub places: Places,
}

/// How many locals stand before those that the sections declare.
fn first_of(of: &Declaring<'_>) -> usize
    ensures { result ≡ first_of of.now }
{
    match of {
        Declaring::Routine(_, result_type, _) => match result_type {
            Some(_) => 1,
            None => 0,
        },
        Declaring::Program(_) => 0,
    }
}

fn one_more(place: usize) -> Result<usize, NoMemory>
    ensures { IfOk result (λ n. n ≡ suc place) }
{
    match place.checked_add(1) {
        Some(next) => Ok(next),
        None => Err(NoMemory),
    }
}

/// Tells what was found of the local for this place of the sections, of which the first has this local.
fn tell_one(
    alloc: Global,
    known: &mut Series<DeclaredVariable>,
    first: usize,
    place: usize,
    found: &(StType, i128),
) -> Result<(), NoMemory>
    ensures { OnOk result (known.new ≡ with_local known.old (first + place) found.now.0 (target.Constant found.now.1)) }
{
    let Some(local) = first.checked_add(place) else {
        return Err(NoMemory);
    };
    let kind = found.0.copy(alloc)?;
    tell_local(known, local, kind, Target::Constant(found.1));
    Ok(())
}

/// The same for all names from this place on up to the first one of another item.
fn tell_behind(
    alloc: Global,
    known: &mut Series<DeclaredVariable>,
    first: usize,
    names: &[WrittenName<'_>],
    place: usize,
    found: &(StType, i128),
) -> Result<(), NoMemory>
    ensures { OnOk result (known.new ≡ told_behind known.old (first + place) (drop place names.now) found.now.0 found.now.1) }
{
    let mut i = place;
    'names: while i < names.len() {
        let name = names[i];
        if name.first {
            return Ok(());
        }
        tell_one(alloc, known, first, i, found)?;
        i += 1;
    }
    Ok(())
}

/// The same for all names of the item that begins at this place.
fn tell_found(
    alloc: Global,
    known: &mut Series<DeclaredVariable>,
    first: usize,
    names: &[WrittenName<'_>],
    place: usize,
    found: &(StType, i128),
) -> Result<(), NoMemory>
    ensures { OnOk result (known.new ≡ told_behind (with_local known.old (first + place) found.now.0 (target.Constant found.now.1)) (first + suc place) (drop (suc place) names.now) found.now.0 found.now.1) }
{
    let next = one_more(place)?;
    tell_one(alloc, known, first, place, found)?;
    tell_behind(alloc, known, first, names, next, found)
}

/// Tells what can be told of the item that begins at the place, where it declares constants; it is evaluated once.
fn visit(
    alloc: Global,
    around: &Around<'_>,
    of: &Declaring<'_>,
    names: &[WrittenName<'_>],
    told: Told,
    place: usize,
) -> Result<Told, NoMemory>
    requires around { IsAround around.now }
    requires names { map global_of names.now ≡ names_in_sections (sections_of of.now) }
    requires told { IsTold around.now of.now told }
    ensures { IfOk result (λ t. IsTold around.now of.now t) }
{
    let Some(name) = names.get(place) else {
        return Ok(told);
    };
    if !name.is_constant() {
        return Ok(told);
    }
    let Told { mut known, places } = told;
    let (found, places) = found_with(alloc, around, known.as_slice(), places, name)?;
    let Some(found) = found else {
        return Ok(Told { known, places });
    };
    tell_found(alloc, &mut known, first_of(of), names, place, &found)?;
    Ok(Told { known, places })
}

/// Visits the items at these places.
pub fn tell_each(
    alloc: Global,
    around: &Around<'_>,
    of: &Declaring<'_>,
    names: &[WrittenName<'_>],
    first: Told,
    order: &[usize],
) -> Result<Told, NoMemory>
    requires around { IsAround around.now }
    requires names { map global_of names.now ≡ names_in_sections (sections_of of.now) }
    requires told { IsTold around.now of.now first }
    ensures { IfOk result (λ t. IsTold around.now of.now t) }
{
    let mut told = first;
    for place in order {
        let next = visit(alloc, around, of, names, told, *place)?;
        told = next;
    }
    Ok(told)
}
