//! The old names of the regions of a program.

ghost use Rattle.std.specs.Prelude.{◌≡◌, IfOk, option_map};
ghost use Rattle.st_change.specs.From as words;
ghost use Rattle.program_tables.specs.st_initial.Variables.{variables_of};
ghost use Rattle.change_names.specs.change_pairs.Pairs.{pairs_of};
ghost use Rattle.change_names.specs.change_pairs.Regions.{regions_of};
ghost use Rattle.change_names.specs.change_pairs.Private.Regions.{AreKnown, region_by};

use crate::change_pairs::places::{Places, mark_places, name_places};
use crate::change_pairs::sources::{Pair, from, same_name};
use plc_text::{NoMemory, Text};
use program_tables::Variable;
use std::alloc::Global;

/// A region: an instance of a program, or a global.
#[derive(Clone, Copy)]
pub struct Placed<'p> {
    pub program: bool,
    pub variable: Variable<'p>,
}

/// The globals of a program.
fn globals_of<'p>(alloc: Global, regions: &[Placed<'p>]) -> Result<Vec<Variable<'p>>, NoMemory>
    ensures { IfOk result (λ vs. variables_of vs.items ≡ words.globals_in (regions_of regions.now)) }
{
    let mut out = Vec::new(alloc);
    for region in regions {
        if !region.program {
            out.push(region.variable)?;
        }
    }
    Ok(out)
}

/// Its instances of programs.
fn instances_of<'p>(alloc: Global, regions: &[Placed<'p>]) -> Result<Vec<Variable<'p>>, NoMemory>
    ensures { IfOk result (λ vs. variables_of vs.items ≡ words.instances_in (regions_of regions.now)) }
{
    let mut out = Vec::new(alloc);
    for region in regions {
        if region.program {
            out.push(region.variable)?;
        }
    }
    Ok(out)
}

/// Where the names and marks stand that tell old names of regions.
#[derive(Drop)]
pub struct Known<'p> {
    pub globals: Vec<Variable<'p>>,
    pub declared: Places,
    pub marks: Places,
    pub instances: Places,
}

fn find_known<'p>(
    alloc: Global,
    new: &[Placed<'p>],
    old: &[Placed<'_>],
) -> Result<Known<'p>, NoMemory>
    ensures { IfOk result (λ known. AreKnown (regions_of new.now) (regions_of old.now) known) }
{
    let globals = globals_of(alloc, new)?;
    let old_globals = globals_of(alloc, old)?;
    let old_instances = instances_of(alloc, old)?;
    let declared = name_places(alloc, &old_globals)?;
    let marks = mark_places(alloc, &globals)?;
    let instances = name_places(alloc, &old_instances)?;
    Ok(Known {
        globals,
        declared,
        marks,
        instances,
    })
}

/// The old name of a region.
fn region_from<'p>(known: &Known<'p>, region: &Placed<'p>) -> Option<&'p Text>
    ensures { option_map (λ t. t.now) result ≡ region_by known.now region.now }
{
    if region.program {
        same_name(&known.instances, &region.variable)
    } else {
        from(
            &known.declared,
            &known.marks,
            &known.globals,
            &region.variable,
        )
    }
}

/// The regions of a program with their old names, by those of the old program.
pub fn region_origins<'p>(
    alloc: Global,
    new: &[Placed<'p>],
    old: &[Placed<'_>],
) -> Result<Vec<Pair<'p>>, NoMemory>
    ensures { IfOk result (λ pairs. pairs_of pairs.items ≡ words.region_pairs_by (words.region_from (regions_of new.now) (regions_of old.now)) (regions_of new.now)) }
{
    let known = find_known(alloc, new, old)?;
    let mut pairs = Vec::new(alloc);
    for region in new {
        let from = region_from(&known, region);
        pairs.push(Pair {
            name: region.variable.name,
            from,
        })?;
    }
    Ok(pairs)
}
