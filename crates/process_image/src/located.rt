//! Variables with addresses.

ghost use Rattle.std.specs.Prelude.{◌≡◌, ◌++◌, IfOk, OnOk, map, option_map};
ghost use Rattle.st_meaning.specs.ProcessImage as words;
ghost use Rattle.st_values.specs.View.{program_of, region_of};
ghost use Rattle.program_tables.specs.st_initial.Members as tables;
ghost use Rattle.program_tables.specs.st_initial.Variables.{variables_of};
ghost use Rattle.process_image.specs.Located.{all_seen};
ghost use Rattle.process_image.specs.Private.Places.{located_at, place_in};

use call_steps::class_of_kind;
use plc_text::{NoMemory, Text, narrowed};
use program_tables::{Members, Variable};
use run_steps::elem_of;
use st_tree::{Path, Program, RegionDecl, Step, Steps};
use st_types::{Elem, StType};
use std::alloc::Global;

/// A variable with an address.
#[derive(Drop)]
pub struct Located<'p> {
    /// Where it stands.
    pub path: Path,
    /// The type in which its number is taken.
    pub elem: Elem,
    /// In upper case.
    pub address: &'p Text,
}

/// The path of a region, or of a variable of the instance that it is.
fn path_in(alloc: Global, region: u32, field: Option<u32>) -> Result<Path, NoMemory>
    ensures { IfOk result (λ q. q ≡ place_in region field) }
{
    let mut steps = Steps::new(alloc);
    match field {
        None => Ok(Path { region, steps }),
        Some(k) => {
            steps.push(Step::Field(k))?;
            Ok(Path { region, steps })
        }
    }
}

/// Adds a variable, where it has an address.
fn push_located<'p>(
    alloc: Global,
    out: &mut Vec<Located<'p>>,
    region: u32,
    field: Option<u32>,
    kind: &StType,
    address: Option<&'p Text>,
) -> Result<(), NoMemory>
    ensures { OnOk result (all_seen out.new.items ≡ all_seen out.old.items ++ located_at (place_in region field) kind.now (option_map (λ a. a.now) address.entry)) }
{
    match address {
        Some(address) => {
            let path = path_in(alloc, region, field)?;
            let elem = elem_of(kind);
            out.push(Located {
                path,
                elem,
                address,
            })?;
            Ok(())
        }
        None => Ok(()),
    }
}

/// Adds those of an instance.
#[tactic(auto, using(crate::proofs::LocatedLaws::variable_next, crate::proofs::LocatedLaws::variables_end))]
fn push_variables<'p>(
    alloc: Global,
    out: &mut Vec<Located<'p>>,
    region: u32,
    variables: &[Variable<'p>],
) -> Result<(), NoMemory>
    ensures { OnOk result (all_seen out.new.items ≡ all_seen out.old.items ++ words.located_variables region 0 (variables_of variables.now)) }
{
    for (k, variable) in variables.iter().enumerate() {
        let number = narrowed(k)?;
        push_located(
            alloc,
            out,
            region,
            Some(number),
            variable.kind,
            variable.address,
        )?;
    }
    Ok(())
}

/// Adds those of a region.
fn push_region<'p>(
    alloc: Global,
    out: &mut Vec<Located<'p>>,
    program: &'p Program,
    members: &Members<'p>,
    region: u32,
    decl: &'p RegionDecl,
) -> Result<(), NoMemory>
    requires { tables.Holds (program_of program.now) members.now }
    ensures { OnOk result (all_seen out.new.items ≡ all_seen out.old.items ++ words.located_in (program_of program.now) region (region_of decl.now)) }
{
    let _ = program;
    if decl.program {
        let class = class_of_kind(&decl.kind) as usize;
        match members.classes.get(class) {
            Some(variables) => push_variables(alloc, out, region, variables.as_slice()),
            None => push_variables(alloc, out, region, &[]),
        }
    } else {
        push_located(alloc, out, region, None, &decl.kind, decl.address.as_ref())
    }
}

/// Adds those of regions.
#[tactic(auto, using(crate::proofs::LocatedLaws::region_next, crate::proofs::LocatedLaws::regions_end))]
fn push_regions<'p>(
    alloc: Global,
    out: &mut Vec<Located<'p>>,
    program: &'p Program,
    members: &Members<'p>,
    regions: &'p [RegionDecl],
) -> Result<(), NoMemory>
    requires { tables.Holds (program_of program.now) members.now }
    ensures { OnOk result (all_seen out.new.items ≡ all_seen out.old.items ++ words.located_from (program_of program.now) 0 (map region_of regions.now)) }
{
    for (r, decl) in regions.iter().enumerate() {
        let number = narrowed(r)?;
        push_region(alloc, out, program, members, number, decl)?;
    }
    Ok(())
}

/// The variables with addresses, in the order of the text.
pub fn located_of<'p>(
    alloc: Global,
    program: &'p Program,
    members: &Members<'p>,
) -> Result<Vec<Located<'p>>, NoMemory>
    requires { tables.Holds (program_of program.now) members.now }
    ensures { IfOk result (λ found. all_seen found.items ≡ words.located_of (program_of program.now)) }
{
    let mut found = Vec::new(alloc);
    push_regions(
        alloc,
        &mut found,
        program,
        members,
        program.regions.as_slice(),
    )?;
    Ok(found)
}
