//! Which regions of the old program those of the new one come from.

ghost use Rattle.std.specs.Prelude.{◌≡◌, IfOk, map, option_and_then};
ghost use Rattle.st_change.specs.From as words;
ghost use Rattle.st_values.specs.View as view;
ghost use Rattle.st_values.specs.View.{program_of};
ghost use Rattle.change_names.specs.change_pairs.Places.{found_in};
ghost use Rattle.change_names.specs.change_pairs.Regions.{region_of, regions_of};
ghost use Rattle.change_names.specs.Regions.{AreNumbers};
ghost use Rattle.change_names.specs.Private.Places.{ArePlacesOf};

use crate::change_pairs::{PairTable, Placed, Places, place_of, put_name, region_origins};
use plc_text::NoMemory;
use program_tables::Variable;
use st_tree::{Program, RegionDecl, SectionSort};
use std::alloc::Global;
use std::collections::HashMap;

/// A region, with its variable.
fn placed(decl: &RegionDecl) -> Placed<'_>
    ensures { region_of result ≡ view.region_of decl.now }
{
    Placed {
        program: decl.program,
        variable: Variable {
            name: &decl.name,
            sort: SectionSort::Global,
            kind: &decl.kind,
            initial: decl.initial.as_ref(),
            no_copy: decl.marks.no_copy,
            init_on_change: decl.marks.init_on_change,
            renamed_from: decl.marks.renamed_from.as_ref(),
            address: decl.address.as_ref(),
        },
    }
}

/// The regions of a program.
fn regions(alloc: Global, program: &Program) -> Result<Vec<Placed<'_>>, NoMemory>
    ensures { IfOk result (λ regions. regions_of regions.items ≡ (program_of program.now).regions) }
{
    let mut out = Vec::new(alloc);
    for decl in program.regions.as_slice() {
        out.push(placed(decl))?;
    }
    Ok(out)
}

/// Where the first region of each name stands.
fn region_places(alloc: Global, regions: &[Placed<'_>]) -> Result<Places, NoMemory>
    ensures { IfOk result (λ table. ArePlacesOf table (words.names_of_regions (regions_of regions.now))) }
{
    let mut table: Places = HashMap::new(alloc);
    let mut i = regions.len();
    'regions: while i > 0 {
        i -= 1;
        put_name(alloc, &mut table, regions[i].variable.name, i)?;
    }
    Ok(table)
}

/// The number of the old region that a new one comes from.
fn old_number(pairs: &PairTable<'_>, places: &Places, region: &Placed<'_>) -> Option<u32>
    ensures { result ≡ option_and_then (found_in places.now) (words.old_name pairs.now (region_of region.now).variable.name) }
{
    match pairs.old_name(region.variable.name) {
        Some(old) => place_of(places, old),
        None => None,
    }
}

/// The number of the new region that comes from an old one.
fn new_number(pairs: &PairTable<'_>, places: &Places, region: &Placed<'_>) -> Option<u32>
    ensures { result ≡ option_and_then (found_in places.now) (words.new_name pairs.now (region_of region.now).variable.name) }
{
    match pairs.new_name(region.variable.name) {
        Some(new) => place_of(places, new),
        None => None,
    }
}

/// The old numbers of new regions.
fn old_numbers(
    alloc: Global,
    pairs: &PairTable<'_>,
    places: &Places,
    new: &[Placed<'_>],
) -> Result<Vec<Option<u32>>, NoMemory>
    ensures { IfOk result (λ numbers. numbers.items ≡ map (λ x. option_and_then (found_in places.now) (words.old_name pairs.now x.variable.name)) (regions_of new.now)) }
{
    let mut numbers = Vec::new(alloc);
    for region in new {
        numbers.push(old_number(pairs, places, region))?;
    }
    Ok(numbers)
}

/// The new numbers of old regions.
fn new_numbers(
    alloc: Global,
    pairs: &PairTable<'_>,
    places: &Places,
    old: &[Placed<'_>],
) -> Result<Vec<Option<u32>>, NoMemory>
    ensures { IfOk result (λ numbers. numbers.items ≡ map (λ x. option_and_then (found_in places.now) (words.new_name pairs.now x.variable.name)) (regions_of old.now)) }
{
    let mut numbers = Vec::new(alloc);
    for region in old {
        numbers.push(new_number(pairs, places, region))?;
    }
    Ok(numbers)
}

/// The numbers of regions before and after a change.
#[derive(Drop)]
pub struct RegionNumbers {
    /// Of each new region, the old one that it comes from.
    pub old: Vec<Option<u32>>,
    /// Of each old region, the new one that comes from it.
    pub new: Vec<Option<u32>>,
}

/// The numbers of the regions of two programs.
pub fn region_numbers(
    alloc: Global,
    old: &Program,
    new: &Program,
) -> Result<RegionNumbers, NoMemory>
    ensures { IfOk result (λ numbers. AreNumbers (program_of old.now) (program_of new.now) numbers) }
{
    let before = regions(alloc, old)?;
    let after = regions(alloc, new)?;
    let old_places = region_places(alloc, &before)?;
    let new_places = region_places(alloc, &after)?;
    let pairs = region_origins(alloc, &after, &before)?;
    let table = PairTable::build(alloc, pairs)?;
    let old = old_numbers(alloc, &table, &old_places, &after)?;
    let new = new_numbers(alloc, &table, &new_places, &before)?;
    Ok(RegionNumbers { old, new })
}
